#![tactic(auto)]
// The replay, the engine, reasons, ages, register image, panel, the rewriter and the alert search for programs in C and Rust: slices in, a number out.
// A slice is passed as pointer and number of elements; no pointer may be null, and two of one call may not overlap:
// size_t snezhulka_replay(const uint8_t *text, size_t text_len, uint8_t *report, size_t report_len);
// size_t snezhulka_steps(const int32_t *numbers, size_t count, uint8_t *outcomes, size_t outcomes_len);
// size_t snezhulka_reasons(const int32_t *numbers, size_t count, uint8_t *reasons, size_t reasons_len);
// size_t snezhulka_ages(const int32_t *numbers, size_t count, uint16_t *ages, size_t ages_len);
// size_t snezhulka_image(const int32_t *numbers, size_t count, uint8_t *image, size_t image_len);
// size_t snezhulka_panel(const int32_t *numbers, size_t count, double *figures, size_t figures_len, uint8_t *cases, size_t cases_len);
// size_t snezhulka_rewrite(const uint8_t *text, size_t text_len, uint8_t *copy, size_t copy_len);
// size_t snezhulka_wrong_line(const uint8_t *text, size_t text_len, uint8_t *line, size_t line_len);
// uint8_t snezhulka_alert(struct snezhulka_alert_entry *row, size_t count, uint8_t *data);
ghost use Rattle.std.specs.Prelude.{◌≡◌, length, take};
ghost use Rattle.std.proofs.lemmas.List.Edits.{sets};
ghost use Rattle.event.specs.Answers.{number_of};
ghost use Rattle.rules.specs.AlertRow.{row_answer, row_after};
ghost use Rattle.buffer.specs.Put.{put_of, held_of};
ghost use Rattle.std.specs.Result.{result_unwrap_or};
ghost use Rattle.player.specs.Report.{replay_answer, replay_buffer};
ghost use Rattle.stepper.specs.Steps.{steps_answer, steps_buffer};
ghost use Rattle.reasoner.specs.Reasons.{reasons_answer, reasons_buffer};
ghost use Rattle.reasoner.specs.Ages.{ages_answer, ages_buffer};
ghost use Rattle.imager.specs.Image.{image_after, image_left};
ghost use Rattle.imager.specs.Figures.{panel_after, figures_left, cases_left};
ghost use Rattle.rewriter.specs.Rewritten.{copy_end};
ghost use Rattle.rewriter.specs.Wrong.{wrong_line};
ghost use Rattle.snezhulka.specs.Exported.{no_length};

use event::AlertEntry;

// What a refusal is told by: the largest number.
// Stays: C has no Result, the exported functions answer it a number.
const REFUSED: usize = usize::MAX;

// How long the report is; or the largest number, where text or buffer has the wrong size, and the buffer as it was.
#[unsafe(no_mangle)]
pub extern "C" fn snezhulka_replay(text: &[u8], report: &mut [u8]) -> usize
    ensures value { result ≡ result_unwrap_or (replay_answer text.now report.old) no_length }
    ensures report_after { report.new ≡ replay_buffer text.now report.old }
{
    player::replay(text, report).unwrap_or(REFUSED)
}

// Events as four numbers each: the kind from 0 (power) to 10 (diode) in the order of the trace format, who, arg, val.
// Outcomes as seven bytes each, in the order of the report: how many bytes, up to the first event of another kind; or the
// largest number, where the numbers are no whole events or the buffer is too short for all, and the buffer as it was.
#[unsafe(no_mangle)]
pub extern "C" fn snezhulka_steps(numbers: &[i32], outcomes: &mut [u8]) -> usize
    ensures value { result ≡ result_unwrap_or (steps_answer numbers.now outcomes.old) no_length }
    ensures outcomes_after { outcomes.new ≡ steps_buffer numbers.now outcomes.old }
{
    stepper::steps(numbers, outcomes).unwrap_or(REFUSED)
}

// Why both fans have their duties after each of the same events, eight bytes an event: for fan 1, then fan 2, the number of the
// reason from 1 to 8 and its three values, 0 where it has fewer; 0, the reply and two zeros before the first accepted power.
// How many bytes, up to the first event of another kind; or the largest number, where the numbers are no whole events or the
// buffer is too short for all, and the buffer as it was.
#[unsafe(no_mangle)]
pub extern "C" fn snezhulka_reasons(numbers: &[i32], reasons: &mut [u8]) -> usize
    ensures value { result ≡ result_unwrap_or (reasons_answer numbers.now reasons.old) no_length }
    ensures reasons_after { reasons.new ≡ reasons_buffer numbers.now reasons.old }
{
    reasoner::reasons(numbers, reasons).unwrap_or(REFUSED)
}

// The stamp, and since how many clock events both fans turn, after each of the same events, three numbers an event: the stamp, the
// age of fan 1, the age of fan 2, each modulo 65,536; all 0 before the first accepted power. How many numbers, up to the first event
// of another kind; or the largest number, where the numbers are no whole events or the buffer is too short for all, and the buffer
// as it was.
#[unsafe(no_mangle)]
pub extern "C" fn snezhulka_ages(numbers: &[i32], ages: &mut [u16]) -> usize
    ensures value { result ≡ result_unwrap_or (ages_answer numbers.now ages.old) no_length }
    ensures ages_after { ages.new ≡ ages_buffer numbers.now ages.old }
{
    reasoner::ages(numbers, ages).unwrap_or(REFUSED)
}

// The register image after the same events, in the first 64 bytes of the buffer: its reply number, 0, 1 or 11; 10 where
// an event has another kind, 11 where the numbers are no whole events. But for 0 the buffer stays as it was.
#[unsafe(no_mangle)]
pub extern "C" fn snezhulka_image(numbers: &[i32], image: &mut [u8]) -> usize
    ensures value { result ≡ number_of (image_after numbers.now image.old) }
    ensures image_after { image.new ≡ image_left numbers.now image.old }
{
    event::number_of(imager::image(numbers, image)) as usize
}

// The panel after the same events: local, remote 1 and remote 2 in degrees, fan 1 and fan 2 in revolutions a minute, in the first
// five figures; the case of each fan in the first two cases, 0 not measured, 1 stalled, 2 a speed; a figure that is no speed is 0.
// The reply number: 0; 11 where the numbers are no whole events or a buffer is too short, 10 where an event has another kind,
// 1 before the first accepted power. But for 0 the buffers stay as they were.
#[unsafe(no_mangle)]
pub extern "C" fn snezhulka_panel(numbers: &[i32], figures: &mut [f64], cases: &mut [u8]) -> usize
    ensures value { result ≡ number_of (panel_after numbers.now figures.old cases.old) }
    ensures figures_after { figures.new ≡ figures_left numbers.now figures.old cases.old }
    ensures cases_after { cases.new ≡ cases_left numbers.now figures.old cases.old }
{
    event::number_of(imager::panel(numbers, figures, cases)) as usize
}

// A trace read event by event and written again: how many bytes, up to the first event that is not well-formed or does
// not fit. They are the text's own, since an event has one text only.
#[unsafe(no_mangle)]
pub extern "C" fn snezhulka_rewrite(text: &[u8], copy: &mut [u8]) -> usize
    ensures value { result ≡ copy_end text.now (length copy.old) }
    ensures copy_after { copy.new
        ≡ sets copy.old 0 (take (copy_end text.now (length copy.old)) text.now) }
{
    rewriter::rewrite(text, copy)
}

// The first wrong line of a trace, without its newline, in the buffer: how long it is, 0 where no line is wrong or the wrong
// one is empty or missing; or the largest number, where the buffer is too short for it, and the buffer as it was.
#[unsafe(no_mangle)]
pub extern "C" fn snezhulka_wrong_line(text: &[u8], line: &mut [u8]) -> usize
    ensures value { result ≡ result_unwrap_or (put_of line.old 0 (wrong_line text.now)) no_length }
    ensures line_after { line.new ≡ held_of line.old 0 (wrong_line text.now) }
{
    rewriter::wrong_line(text, line).unwrap_or(REFUSED)
}

// The search at the alert response address, 0x0C, over a row of entries, `struct { uint8_t address; bool asserting; }`: the reply
// number, 0, 6 or 12. For 0 the lowest address that asserts is put into `data` and let go in the row; else both stay as they were.
#[unsafe(no_mangle)]
pub extern "C" fn snezhulka_alert(row: &mut [AlertEntry], data: &mut u8) -> u8
    ensures { (result ≡ number_of (row_answer row.old))
        × (row.new ≡ row_after row.old)
        × («data».new ≡ result_unwrap_or (row_answer row.old) «data».old) }
{
    let answer = alert::respond(row);
    *data = answer.unwrap_or(*data);
    event::number_of(answer)
}
