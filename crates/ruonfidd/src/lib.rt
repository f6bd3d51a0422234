// The engine's calls for C and Rust: every name begins with ruonfidd_. include/ruonfidd.h declares them for C and says
// in plain words what each answers and what its caller owes.
//
// A `&[u8]` is passed as a pointer and a length, a `&mut` of a number or of an array as a pointer to what the call
// sets. A `Result` does not pass to C: a call returns the number, 0 for none, and sets the rest in every case. A tally is
// three numbers: commits, failed, retries; runs and steps count on from what it holds. A suggestion is three bytes:
// kind, position, node; a shortage is two: a tray and by how many, 0 0 for none; a station just laid down is two: its
// kind and its body, as they stand in a hall. Only a sentence that is refused sets nothing: its buffer and its length
// stay as they were.
//
// Each export makes its call and has the crate `answers` tell what it answered.
#![tactic(auto)]

ghost use Rattle.std.specs.Prelude.{◌≡◌, ◌≤◌};
ghost use Rattle.semantics.specs.Definitions.Run.{fresh_counters};
ghost use Rattle.semantics.specs.Definitions.Calls.{check_table, check_hall, open_hall, run_call, step_call};
ghost use Rattle.semantics.specs.Definitions.Turns.{turn_call};
ghost use Rattle.semantics.specs.Definitions.Suggestion.{suggest_call};
ghost use Rattle.semantics.specs.Definitions.Report.{printed_run};
ghost use Rattle.semantics.specs.Definitions.Sentence.{sentence_call};
ghost use Rattle.semantics.specs.Promises.{Promised};
ghost use Rattle.answers.specs.Answered.{VerdictAnswered, OpeningAnswered, TurnAnswered, tally_words, buffers_in, RunAnswered, StepAnswered, SuggestionAnswered, reply_from, SentenceAnswered};
ghost use Rattle.answers.specs.Promises.{ToldTables, ToldHalls, ToldOpenings, ToldTurns, ToldRuns, ToldSteps, ToldSuggestions, ToldSentences};
ghost use Rattle.print_decimals.specs.Wrote.{Wrote};
ghost use Rattle.print_sections.specs.Limits.{lines_most};
ghost use Rattle.answers.specs.Answers.{reply_told};

use answers::{Counters, Moved, Short};
use print_report::OUTPUT;

// Whether a table is accepted: 0, and place 0; or the number of the first refusal, and its place.
#[unsafe(no_mangle)]
pub extern "C" fn ruonfidd_check_table(table: &[u8], place: &mut usize) -> u8
    ensures verdict_answered { VerdictAnswered (check_table table.now) result place.new }
    ensures promised { Promised ToldTables }
{
    answers::tell_verdict(table_read::check_table(table), place)
}

// Opens a table in a hall: 0, and place 0; or the number of the first refusal, and its place, with the hall as it
// was. The counters of an opened hall are the fresh ones.
#[unsafe(no_mangle)]
pub extern "C" fn ruonfidd_open_hall(table: &[u8], hall: &mut [u8], place: &mut usize) -> u8
    ensures opening_answered { OpeningAnswered (open_hall table.now hall.old)
        result place.new hall.new }
    ensures promised { Promised ToldOpenings }
{
    answers::tell_verdict(call_open::open_hall(table, hall), place)
}

// Shows a turn, counted from 0, of the opening of a table: 0, place 0, whether it lays down a station, the station, 0 0
// where there is none, and how many terms are then left to open; past the end none. Or the number of the first refusal of
// the table and its place, with all else 0.
#[unsafe(no_mangle)]
pub extern "C" fn ruonfidd_opening_turn(
    table: &[u8],
    turn: usize,
    laid: &mut u8,
    station: &mut [u8; 2],
    left: &mut usize,
    place: &mut usize,
) -> u8
    ensures turn_answered { TurnAnswered (turn_call table.now turn) result place.new laid.new
        station.new left.new }
    ensures promised { Promised ToldTurns }
{
    let answer = call_turn::opening_turn(table, turn);
    answers::tell_turn(answer, laid, station, left, place)
}

// Whether a stored hall is well formed for a table: 0, and place 0; or the number of the first refusal, and its place.
#[unsafe(no_mangle)]
pub extern "C" fn ruonfidd_check_hall(table: &[u8], hall: &[u8], place: &mut usize) -> u8
    ensures verdict_answered { VerdictAnswered (check_hall table.now hall.now) result place.new }
    ensures promised { Promised ToldHalls }
{
    answers::tell_verdict(call_check::check_hall(table, hall), place)
}

// The fresh tally: what the first run after an opening is lent.
#[unsafe(no_mangle)]
pub extern "C" fn ruonfidd_fresh_tally(tally: &mut [u32; 3])
    ensures { tally.new ≡ tally_words fresh_counters }
{
    let fresh = Counters::fresh();
    *tally = answers::tally_words(fresh);
}

// Runs choices: 0, with their length as the place; or the number of the refusal, and its place. `done` is how many
// choices were done. Refused by 1 to 11, hall and tally are as they were; else they are as the choices done made them.
#[unsafe(no_mangle)]
pub extern "C" fn ruonfidd_run(
    table: &[u8],
    hall: &mut [u8],
    choices: &[u8],
    tally: &mut [u32; 3],
    place: &mut usize,
    done: &mut usize,
) -> u8
    ensures run_answered { RunAnswered
        (run_call table.now (buffers_in hall.old tally.old) choices.now)
        result place.new done.new hall.new tally.new }
    ensures promised { Promised ToldRuns }
{
    let answer = call_run::run(table, hall, choices, answers::counters_in(tally));
    answers::tell_run(answer, tally, place, done)
}

// Makes one choice: 0, with the rule by which it moved, what was short and the choice's length as the place; or the
// number of the refusal and its place, with rule 0, nothing short, and hall and tally as they were. Of a choice of kind
// 1 the node counts for nothing.
#[unsafe(no_mangle)]
pub extern "C" fn ruonfidd_step(
    table: &[u8],
    hall: &mut [u8],
    kind: u8,
    position: u8,
    node: u8,
    tally: &mut [u32; 3],
    rule: &mut u8,
    shortage: &mut [u8; 2],
    place: &mut usize,
) -> u8
    ensures step_answered { StepAnswered
        (step_call table.now (buffers_in hall.old tally.old) kind position node)
        result place.new rule.new shortage.new hall.new tally.new }
    ensures promised { Promised ToldSteps }
{
    let before = answers::counters_in(tally);
    let answer = call_step::step(table, hall, kind, position, node, before);
    answers::tell_step(answer, before, tally, rule, shortage, place)
}

// Suggests the first choice that is accepted, at the lowest position, there at the lowest node: 0, place 0, and the
// choice; kind 0 where no choice is accepted. Or the number of the refusal and its place, and kind 0. What is not said
// is 0.
#[unsafe(no_mangle)]
pub extern "C" fn ruonfidd_suggest(
    table: &[u8],
    hall: &[u8],
    choice: &mut [u8; 3],
    place: &mut usize,
) -> u8
    ensures suggestion_answered { SuggestionAnswered (suggest_call table.now hall.now) result place.new
        choice.new }
    ensures promised { Promised ToldSuggestions }
{
    answers::tell_suggestion(call_suggest::suggest(table, hall), choice, place)
}

// Writes the printed run of an input, a table and the choices behind it, and sets its length. There is nothing to
// refuse: no report is longer than the output, whose bytes behind the report stay as they were.
#[unsafe(no_mangle)]
pub extern "C" fn ruonfidd_report(input: &[u8], output: &mut [u8; OUTPUT], length: &mut usize)
    ensures equation { Wrote output.old 0 (printed_run input.now) output.new
        length.new }
    ensures short { length.new ≤ lines_most }
{
    let written = print_report::report(input, output);
    *length = written;
}

// A reply that C gives by its bytes: whether the choice moved, the number of the rule or of the refusal, and a shortage,
// 0 0 for none.
fn reply_from(moved: u8, number: u8, tray: u8, by: u8) -> Result<Moved, u8>
    ensures { reply_told result ≡ reply_from moved number tray by }
{
    if moved == 0 {
        return Err(number);
    }
    let short = if answers::tells_short(tray, by) {
        Some(Short { channel: tray, by })
    } else {
        None
    };
    Ok(Moved {
        rule: number,
        short,
    })
}

// Writes the sentence of a choice and its answer to the front of a buffer, whose other bytes are left: 0, and its
// length. `moved` is 0 where the choice was refused with this number, and any other byte where it moved by the rule of
// this number; then `tray` was short by `by`, and none was by 0 0. Or 21, whose place is always 0: the buffer is too
// short, and neither it nor the length is written.
#[unsafe(no_mangle)]
pub extern "C" fn ruonfidd_sentence(
    kind: u8,
    position: u8,
    node: u8,
    moved: u8,
    number: u8,
    tray: u8,
    by: u8,
    buffer: &mut [u8],
    length: &mut usize,
) -> u8
    ensures sentence_answered { SentenceAnswered
        (sentence_call kind position node (reply_from moved number tray by) buffer.old)
        result length.old length.new buffer.new }
    ensures promised { Promised ToldSentences }
{
    let reply = reply_from(moved, number, tray, by);
    answers::tell_sentence(
        print_sentence::sentence(kind, position, node, reply, buffer),
        length,
    )
}
