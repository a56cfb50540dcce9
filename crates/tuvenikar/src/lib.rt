// The calls for C, on numbers and slices. Each answers with one number: its low half says what, its high half the place or the
// value; include/tuvenikar.h has the same for C.
#![tactic(auto)]

ghost use Rattle.std.specs.Prelude.{◌≡◌, [], ◌∷◌};
ghost use Rattle.truth_calls.specs.Evaluation.{evaluated};
ghost use Rattle.node_calls.specs.Calls.{node_place_of};
ghost use Rattle.table_calls.specs.Table.{tabled};
ghost use Rattle.paper_assignments.specs.Calls.{extended, proposed};
ghost use Rattle.file_numbers.specs.File.{sizes_by};
ghost use Rattle.file_calls.specs.Calls.{file_written, file_read};
ghost use Rattle.strip.specs.Call.{stripped};
ghost use Rattle.answers.specs.Answers.{pack_verdict, pack_located};
ghost use Rattle.tuvenikar.specs.Left.{TableLeft, AssignmentLeft, RecordingLeft, FileLeft, StripLeft, arrays, searched_with, SearchLeft};

use table_layout::Sizes;

// Whether the recording satisfies the formula on [i, j]: questions 1 to 7 and 9 to 11.
#[unsafe(no_mangle)]
pub extern "C" fn tuv_evaluate(text: &[u8], c: u32, k: u32, i: u32, j: u32, recording: &[u8]) -> u64
    ensures { result ≡ pack_verdict (evaluated c k i j text.now recording.now) }
{
    answers::pack_verdict(truth_calls::evaluate(text, c, k, i, j, recording))
}

// Where a node's own text is in the lent text: questions 1 to 8.
#[unsafe(no_mangle)]
pub extern "C" fn tuv_node_text(text: &[u8], c: u32, k: u32, node: u32) -> u64
    ensures { result ≡ pack_located (node_place_of c k node text.now) }
{
    answers::pack_located(node_calls::node_place(text, c, k, node))
}

// The clause table, the formula's Tseitin encoding, in two parallel arrays, and its five sizes: questions 1 to 7 and 18.
#[unsafe(no_mangle)]
pub extern "C" fn tuv_table(
    text: &[u8],
    c: u32,
    k: u32,
    sizes: &mut [u32],
    variables: &mut [u32],
    marks: &mut [u8],
) -> u64
    ensures { TableLeft (tabled c k text.now sizes.old variables.old marks.old) result sizes.new variables.new marks.new }
{
    answers::pack_written(table_calls::table(text, c, k, sizes, variables, marks))
}

// The assignment that extends a recording and meets all clauses but the last: questions 1 to 7, 10, 11 and 18.
#[unsafe(no_mangle)]
pub extern "C" fn tuv_extend(
    text: &[u8],
    c: u32,
    k: u32,
    recording: &[u8],
    assignment: &mut [u8],
) -> u64
    ensures { AssignmentLeft (extended c k text.now recording.now assignment.old) result assignment.new }
{
    answers::pack_written(extend_calls::extend(text, c, k, recording, assignment))
}

// Whether a proposed assignment meets every clause, and the recording read from it: questions 1 to 7, 12 to 14 and 18.
#[unsafe(no_mangle)]
pub extern "C" fn tuv_check(
    text: &[u8],
    c: u32,
    k: u32,
    assignment: &[u8],
    recording: &mut [u8],
) -> u64
    ensures { RecordingLeft (proposed c k text.now assignment.now recording.old) result recording.new }
{
    answers::pack_checked(check_calls::check(text, c, k, assignment, recording))
}

// The first recording that satisfies the formula, by backtracking with unit propagation, within a limit of tries: questions 1 to 7 and 18.
#[unsafe(no_mangle)]
pub extern "C" fn tuv_search(
    text: &[u8],
    c: u32,
    k: u32,
    limit: u32,
    variables: &mut [u32],
    marks: &mut [u8],
    values: &mut [u8],
    trail: &mut [u32],
    recording: &mut [u8],
) -> u64
    ensures { let before = arrays variables.old marks.old values.old trail.old recording.old in
        let after = arrays variables.new marks.new values.new trail.new recording.new in
        SearchLeft (searched_with c k text.now limit before) result before after }
{
    answers::pack_answer(search_calls::search(
        text, c, k, limit, variables, marks, values, trail, recording,
    ))
}

// A recording's strip for the lab notebook: questions 1, 2, 10, 11 and 18.
#[unsafe(no_mangle)]
pub extern "C" fn tuv_strip(c: u32, k: u32, recording: &[u8], strip: &mut [u8]) -> u64
    ensures { StripLeft (stripped c k recording.now strip.old) result strip.new }
{
    answers::pack_printed(strip_calls::strip(c, k, recording, strip))
}

// A table's file, from its five sizes and its two arrays: questions 15 to 18.
#[unsafe(no_mangle)]
pub extern "C" fn tuv_write_file(
    c: u32,
    k: u32,
    v: u32,
    m: u32,
    l: u32,
    variables: &[u32],
    marks: &[u8],
    file: &mut [u8],
) -> u64
    ensures { FileLeft (file_written (sizes_by (c ∷ k ∷ v ∷ m ∷ l ∷ [])) variables.now marks.now file.old) result file.new }
{
    let s = Sizes {
        channels: c,
        steps: k,
        variables: v,
        clauses: m,
        literals: l,
    };
    answers::pack_written(file_calls::write(s, variables, marks, file))
}

// A file's five sizes and two arrays: questions 15 to 18.
#[unsafe(no_mangle)]
pub extern "C" fn tuv_read_file(
    file: &[u8],
    sizes: &mut [u32],
    variables: &mut [u32],
    marks: &mut [u8],
) -> u64
    ensures { TableLeft (file_read file.now sizes.old variables.old marks.old) result sizes.new variables.new marks.new }
{
    answers::pack_written(file_calls::read(file, sizes, variables, marks))
}
