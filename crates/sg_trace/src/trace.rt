// The text of a report.
ghost use Rattle.std.specs.Prelude.{◌≡◌, ◌+◌, ◌≤◌, ◌∷◌, ◌++◌, codes, drop, IfOk, IfErr};
ghost use Rattle.std.specs.Fmt.{decimal};
ghost use Rattle.std.specs.List.{flat_map};
ghost use Rattle.sg_trace.specs.Trace.{space, line_feed, StartsWith, answer_text, answer_line, answer_lines, request_text, leave_line, part_text, end_line, epoch_text, pin_line, move_line, fail_line, piece_line, minor_text, pause_text, major_text, block_line, sections_text, service_line, service_text, stop_text};

use itoa::{Buffer, write_digits};
use sg_graph::{
    Answer, BlockLine, EpochReport, Leave, MajorReport, MinorReport, Part, Request, Sections,
    Service, StopReport,
};
use sg_words::{Addr, Move, Piece};
use std::alloc::{AllocError, Global};

/// The most bytes of a line of an answer: three numbers of at most 20 digits, two spaces and a line feed.
const LINE: usize = 63;

/// The bytes for which room is taken at once for each line of an answer.
const USUAL_LINE: usize = 16;

/// Appends the text of an epoch: the line `epoch E`, a line for each answer, a line for each mutator that left, and
/// `end` behind the last epoch.
///
/// The only error is want of memory, and then `out` has the bytes that it had before. Linear in the text.
pub fn append_epoch(
    _alloc: Global,
    out: &mut Vec<u8>,
    report: &EpochReport,
) -> Result<(), AllocError>
    ensures appended { IfOk result (λ _. out.new.items ≡ out.old.items ++ epoch_text report.now) }
    ensures kept { IfErr result (λ _. out.new.items ≡ out.old.items) }
{
    let before = out.len();
    let written = write_epoch(out, report);
    if written.is_err() {
        out.truncate(before);
    }
    written
}

fn write_epoch(out: &mut Vec<u8>, report: &EpochReport) -> Result<(), AllocError>
    ensures front { IfErr result (λ _. StartsWith out.new.items out.old.items) }
    ensures appended { IfOk result (λ _. out.new.items ≡ out.old.items ++ epoch_text report.now) }
{
    out.extend_from_slice(b"epoch ")?;
    append_number(out, u64::from(report.number))?;
    out.push(b'\n')?;
    append_parts(out, report.parts.as_slice())?;
    append_end(out, report.last)
}

fn append_parts(out: &mut Vec<u8>, parts: &[Part]) -> Result<(), AllocError>
    ensures front { IfErr result (λ _. StartsWith out.new.items out.old.items) }
    ensures appended { IfOk result (λ _. out.new.items ≡ out.old.items ++ flat_map part_text parts.now) }
{
    for part in parts {
        append_part(out, part)?;
    }
    Ok(())
}

fn append_part(out: &mut Vec<u8>, part: &Part) -> Result<(), AllocError>
    ensures front { IfErr result (λ _. StartsWith out.new.items out.old.items) }
    ensures appended { IfOk result (λ _. out.new.items ≡ out.old.items ++ part_text part.now) }
{
    append_answers(out, part.mutator, part.first, part.answers.as_slice())?;
    append_leave(out, part.mutator, part.leave)
}

fn append_answers(
    out: &mut Vec<u8>,
    mutator: u32,
    first: u32,
    answers: &[Answer],
) -> Result<(), AllocError>
    ensures front { IfErr result (λ _. StartsWith out.new.items out.old.items) }
    ensures appended { IfOk result (λ _. out.new.items ≡ out.old.items ++ answer_lines mutator first answers.now) }
{
    // Most lines are shorter than that, so the text seldom grows line by line.
    out.reserve(answers.len().saturating_mul(USUAL_LINE))?;
    for (index, answer) in answers.iter().enumerate() {
        append_answer_line(out, mutator, u64::from(first) + index as u64, *answer)?;
    }
    Ok(())
}

fn append_answer_line(
    out: &mut Vec<u8>,
    mutator: u32,
    statement: u64,
    answer: Answer,
) -> Result<(), AllocError>
    ensures front { IfErr result (λ _. StartsWith out.new.items out.old.items) }
    ensures appended { IfOk result (λ _. out.new.items ≡ out.old.items ++ answer_line mutator statement answer) }
{
    match answer {
        Answer::At(address) => append_number_line(out, mutator, statement, address.get()),
        Answer::Number(number) => append_number_line(out, mutator, statement, number),
        Answer::Fine => append_fine_line(out, mutator, statement),
        _ => append_word_line(out, mutator, statement, answer),
    }
}

// The line of an answer that is a number, as one piece.
fn append_number_line(
    out: &mut Vec<u8>,
    mutator: u32,
    statement: u64,
    number: u64,
) -> Result<(), AllocError>
    ensures front { IfErr result (λ _. StartsWith out.new.items out.old.items) }
    ensures appended { IfOk result (λ _. out.new.items ≡ out.old.items ++ decimal mutator ++ space ++ decimal statement ++ space ++ decimal number ++ line_feed) }
{
    let mut line = [0; LINE];
    let answer = write_back(&mut line, LINE, number, b'\n');
    let second = write_back(&mut line, answer, statement, b' ');
    let first = write_back(&mut line, second, u64::from(mutator), b' ');
    out.extend_from_slice(&line[first..])
}

// The line of the answer `ok`, as one piece.
fn append_fine_line(out: &mut Vec<u8>, mutator: u32, statement: u64) -> Result<(), AllocError>
    ensures front { IfErr result (λ _. StartsWith out.new.items out.old.items) }
    ensures appended { IfOk result (λ _. out.new.items ≡ out.old.items ++ decimal mutator ++ space ++ decimal statement ++ space ++ codes "ok" ++ line_feed) }
{
    let mut line = [0; LINE];
    let answer = write_fine(&mut line);
    let second = write_back(&mut line, answer, statement, b' ');
    let first = write_back(&mut line, second, u64::from(mutator), b' ');
    out.extend_from_slice(&line[first..])
}

// The line of an answer that is another word; what stands before the word is one piece.
fn append_word_line(
    out: &mut Vec<u8>,
    mutator: u32,
    statement: u64,
    answer: Answer,
) -> Result<(), AllocError>
    ensures front { IfErr result (λ _. StartsWith out.new.items out.old.items) }
    ensures appended { IfOk result (λ _. out.new.items ≡ out.old.items ++ answer_line mutator statement answer) }
{
    append_beginning(out, mutator, statement)?;
    append_answer(out, answer)?;
    out.push(b'\n')?;
    Ok(())
}

// What stands before the answer.
fn append_beginning(out: &mut Vec<u8>, mutator: u32, statement: u64) -> Result<(), AllocError>
    ensures front { IfErr result (λ _. StartsWith out.new.items out.old.items) }
    ensures appended { IfOk result (λ _. out.new.items ≡ out.old.items ++ decimal mutator ++ space ++ decimal statement ++ space) }
{
    let mut line = [0; LINE];
    let second = write_back(&mut line, LINE, statement, b' ');
    let first = write_back(&mut line, second, u64::from(mutator), b' ');
    out.extend_from_slice(&line[first..])
}

// Writes the number and this byte behind it so that they end at `end`, and returns where they start.
fn write_back(line: &mut [u8; LINE], end: usize, number: u64, byte: u8) -> usize
    requires room { 21 ≤ end }
    requires within { end ≤ 63 }
    ensures start { result ≤ end }
    ensures short { end ≤ result + 21 }
    ensures written { drop result line.new ≡ decimal number ++ byte ∷ drop end line.old }
{
    line[end - 1] = byte;
    write_digits(number, line, end - 1)
}

// Writes `ok` and a line feed at the line's end, and returns where they start.
fn write_fine(line: &mut [u8; LINE]) -> usize
    ensures start { result ≡ 60 }
    ensures written { drop result line.new ≡ codes "ok" ++ line_feed }
{
    line[62] = b'\n';
    line[61] = b'k';
    line[60] = b'o';
    60
}

#[inline(always)]
fn append_answer(out: &mut Vec<u8>, answer: Answer) -> Result<(), AllocError>
    ensures front { IfErr result (λ _. StartsWith out.new.items out.old.items) }
    ensures appended { IfOk result (λ _. out.new.items ≡ out.old.items ++ answer_text answer) }
{
    match answer {
        Answer::At(address) => append_number(out, address.get()),
        Answer::Nil => out.extend_from_slice(b"nil"),
        Answer::Null => out.extend_from_slice(b"null"),
        Answer::Number(number) => append_number(out, number),
        Answer::Fine => out.extend_from_slice(b"ok"),
        Answer::Yes => out.extend_from_slice(b"yes"),
        Answer::No => out.extend_from_slice(b"no"),
        Answer::Field => out.extend_from_slice(b"field"),
        Answer::Full => out.extend_from_slice(b"full"),
    }
}

fn append_leave(out: &mut Vec<u8>, mutator: u32, leave: Leave) -> Result<(), AllocError>
    ensures front { IfErr result (λ _. StartsWith out.new.items out.old.items) }
    ensures appended { IfOk result (λ _. out.new.items ≡ out.old.items ++ leave_line mutator leave) }
{
    append_number(out, u64::from(mutator))?;
    match leave {
        Leave::Ended => out.extend_from_slice(b" done\n"),
        Leave::Yield => out.extend_from_slice(b" yield\n"),
        Leave::Wants(request) => {
            out.push(b' ')?;
            append_request(out, request)?;
            out.push(b'\n')?;
            Ok(())
        }
    }
}

fn append_request(out: &mut Vec<u8>, request: Request) -> Result<(), AllocError>
    ensures front { IfErr result (λ _. StartsWith out.new.items out.old.items) }
    ensures appended { IfOk result (λ _. out.new.items ≡ out.old.items ++ request_text request) }
{
    match request {
        Request::Need { words } => {
            out.extend_from_slice(b"need ")?;
            append_number(out, u64::from(words))
        }
        Request::Slot { size } => {
            out.extend_from_slice(b"slot ")?;
            append_number(out, u64::from(size))
        }
        Request::Minor => out.extend_from_slice(b"collect minor"),
        Request::Major => out.extend_from_slice(b"collect major"),
        Request::Sections => out.extend_from_slice(b"sections"),
    }
}

fn append_end(out: &mut Vec<u8>, is_last: bool) -> Result<(), AllocError>
    ensures front { IfErr result (λ _. StartsWith out.new.items out.old.items) }
    ensures appended { IfOk result (λ _. out.new.items ≡ out.old.items ++ end_line is_last) }
{
    if is_last {
        out.extend_from_slice(b"end\n")?;
    }
    Ok(())
}

/// Appends the text of a stop: the line `stop E`, the lines of its pauses, and for each request a line for its answer, behind the
/// lines of the sections where it asked for them.
///
/// The only error is want of memory, and then `out` has the bytes that it had before. Linear in the text.
pub fn append_stop(_alloc: Global, out: &mut Vec<u8>, report: &StopReport) -> Result<(), AllocError>
    ensures appended { IfOk result (λ _. out.new.items ≡ out.old.items ++ stop_text report.now) }
    ensures kept { IfErr result (λ _. out.new.items ≡ out.old.items) }
{
    let before = out.len();
    let written = write_stop(out, report);
    if written.is_err() {
        out.truncate(before);
    }
    written
}

fn write_stop(out: &mut Vec<u8>, report: &StopReport) -> Result<(), AllocError>
    ensures front { IfErr result (λ _. StartsWith out.new.items out.old.items) }
    ensures appended { IfOk result (λ _. out.new.items ≡ out.old.items ++ stop_text report.now) }
{
    out.extend_from_slice(b"stop ")?;
    append_number(out, u64::from(report.number))?;
    out.push(b'\n')?;
    append_pause(out, &report.minor)?;
    append_major(out, &report.major)?;
    append_services(out, report.served.as_slice())
}

fn append_pause(out: &mut Vec<u8>, pause: &Option<MinorReport>) -> Result<(), AllocError>
    ensures front { IfErr result (λ _. StartsWith out.new.items out.old.items) }
    ensures appended { IfOk result (λ _. out.new.items ≡ out.old.items ++ pause_text pause.now) }
{
    match pause {
        Some(report) => append_minor(out, report),
        None => Ok(()),
    }
}

fn append_minor(out: &mut Vec<u8>, report: &MinorReport) -> Result<(), AllocError>
    ensures front { IfErr result (λ _. StartsWith out.new.items out.old.items) }
    ensures appended { IfOk result (λ _. out.new.items ≡ out.old.items ++ minor_text report.now) }
{
    out.extend_from_slice(b"minor\n")?;
    append_objects(out, report)?;
    append_gaps(out, report)
}

// What became of the objects of the nursery.
fn append_objects(out: &mut Vec<u8>, report: &MinorReport) -> Result<(), AllocError>
    ensures front { IfErr result (λ _. StartsWith out.new.items out.old.items) }
    ensures appended { IfOk result (λ _. out.new.items ≡ out.old.items ++ flat_map pin_line report.now.pins ++ flat_map move_line report.now.moves ++ flat_map fail_line report.now.fails) }
{
    append_pins(out, report.pins.as_slice())?;
    append_moves(out, report.moves.as_slice())?;
    append_fails(out, report.fails.as_slice())
}

// The spares, and what the nursery's gaps are.
fn append_gaps(out: &mut Vec<u8>, report: &MinorReport) -> Result<(), AllocError>
    ensures front { IfErr result (λ _. StartsWith out.new.items out.old.items) }
    ensures appended { IfOk result (λ _. out.new.items ≡ out.old.items ++ codes "spares " ++ decimal report.now.spares ++ line_feed ++ flat_map piece_line report.now.pieces) }
{
    out.extend_from_slice(b"spares ")?;
    append_number(out, u64::from(report.spares))?;
    out.push(b'\n')?;
    append_pieces(out, report.pieces.as_slice())
}

fn append_pins(out: &mut Vec<u8>, pins: &[Addr]) -> Result<(), AllocError>
    ensures front { IfErr result (λ _. StartsWith out.new.items out.old.items) }
    ensures appended { IfOk result (λ _. out.new.items ≡ out.old.items ++ flat_map pin_line pins.now) }
{
    for pin in pins {
        append_pin(out, *pin)?;
    }
    Ok(())
}

fn append_pin(out: &mut Vec<u8>, pin: Addr) -> Result<(), AllocError>
    ensures front { IfErr result (λ _. StartsWith out.new.items out.old.items) }
    ensures appended { IfOk result (λ _. out.new.items ≡ out.old.items ++ pin_line pin) }
{
    out.extend_from_slice(b"pin ")?;
    append_number(out, pin.get())?;
    out.push(b'\n')?;
    Ok(())
}

fn append_moves(out: &mut Vec<u8>, moves: &[Move]) -> Result<(), AllocError>
    ensures front { IfErr result (λ _. StartsWith out.new.items out.old.items) }
    ensures appended { IfOk result (λ _. out.new.items ≡ out.old.items ++ flat_map move_line moves.now) }
{
    for moved in moves {
        append_move(out, *moved)?;
    }
    Ok(())
}

fn append_move(out: &mut Vec<u8>, moved: Move) -> Result<(), AllocError>
    ensures front { IfErr result (λ _. StartsWith out.new.items out.old.items) }
    ensures appended { IfOk result (λ _. out.new.items ≡ out.old.items ++ move_line moved) }
{
    out.extend_from_slice(b"move ")?;
    append_number(out, moved.from.get())?;
    out.push(b' ')?;
    append_number(out, moved.to.get())?;
    out.push(b'\n')?;
    Ok(())
}

fn append_fails(out: &mut Vec<u8>, fails: &[Addr]) -> Result<(), AllocError>
    ensures front { IfErr result (λ _. StartsWith out.new.items out.old.items) }
    ensures appended { IfOk result (λ _. out.new.items ≡ out.old.items ++ flat_map fail_line fails.now) }
{
    for failed in fails {
        append_fail(out, *failed)?;
    }
    Ok(())
}

fn append_fail(out: &mut Vec<u8>, failed: Addr) -> Result<(), AllocError>
    ensures front { IfErr result (λ _. StartsWith out.new.items out.old.items) }
    ensures appended { IfOk result (λ _. out.new.items ≡ out.old.items ++ fail_line failed) }
{
    out.extend_from_slice(b"fail ")?;
    append_number(out, failed.get())?;
    out.push(b'\n')?;
    Ok(())
}

fn append_pieces(out: &mut Vec<u8>, pieces: &[Piece]) -> Result<(), AllocError>
    ensures front { IfErr result (λ _. StartsWith out.new.items out.old.items) }
    ensures appended { IfOk result (λ _. out.new.items ≡ out.old.items ++ flat_map piece_line pieces.now) }
{
    for piece in pieces {
        append_piece(out, *piece)?;
    }
    Ok(())
}

fn append_piece(out: &mut Vec<u8>, piece: Piece) -> Result<(), AllocError>
    ensures front { IfErr result (λ _. StartsWith out.new.items out.old.items) }
    ensures appended { IfOk result (λ _. out.new.items ≡ out.old.items ++ piece_line piece) }
{
    match piece {
        Piece::Frag { at, words } => {
            out.extend_from_slice(b"frag ")?;
            append_place(out, at, words)
        }
        Piece::Waste { at, words } => {
            out.extend_from_slice(b"waste ")?;
            append_place(out, at, words)
        }
    }
}

fn append_place(out: &mut Vec<u8>, at: Addr, words: u32) -> Result<(), AllocError>
    ensures front { IfErr result (λ _. StartsWith out.new.items out.old.items) }
    ensures appended { IfOk result (λ _. out.new.items ≡ out.old.items ++ decimal at ++ space ++ decimal words ++ line_feed) }
{
    append_number(out, at.get())?;
    out.push(b' ')?;
    append_number(out, u64::from(words))?;
    out.push(b'\n')?;
    Ok(())
}

fn append_major(out: &mut Vec<u8>, pause: &Option<MajorReport>) -> Result<(), AllocError>
    ensures front { IfErr result (λ _. StartsWith out.new.items out.old.items) }
    ensures appended { IfOk result (λ _. out.new.items ≡ out.old.items ++ major_text pause.now) }
{
    match pause {
        Some(report) => {
            append_counts(out, b"major ", report.kept, report.freed)?;
            append_pieces(out, report.pieces.as_slice())
        }
        None => Ok(()),
    }
}

// A line of a word and two counts behind it.
fn append_counts(out: &mut Vec<u8>, word: &[u8], first: u32, second: u32) -> Result<(), AllocError>
    ensures front { IfErr result (λ _. StartsWith out.new.items out.old.items) }
    ensures appended { IfOk result (λ _. out.new.items ≡ out.old.items ++ word.now ++ decimal first ++ space ++ decimal second ++ line_feed) }
{
    out.extend_from_slice(word)?;
    append_number(out, u64::from(first))?;
    out.push(b' ')?;
    append_number(out, u64::from(second))?;
    out.push(b'\n')?;
    Ok(())
}

fn append_sections(out: &mut Vec<u8>, told: &Option<Sections>) -> Result<(), AllocError>
    ensures front { IfErr result (λ _. StartsWith out.new.items out.old.items) }
    ensures appended { IfOk result (λ _. out.new.items ≡ out.old.items ++ sections_text told.now) }
{
    match told {
        Some(sections) => {
            append_counts(out, b"nursery ", sections.young, sections.young_words)?;
            append_blocks(out, sections.blocks.as_slice())
        }
        None => Ok(()),
    }
}

fn append_blocks(out: &mut Vec<u8>, blocks: &[BlockLine]) -> Result<(), AllocError>
    ensures front { IfErr result (λ _. StartsWith out.new.items out.old.items) }
    ensures appended { IfOk result (λ _. out.new.items ≡ out.old.items ++ flat_map block_line blocks.now) }
{
    for block in blocks {
        append_block(out, *block)?;
    }
    Ok(())
}

fn append_block(out: &mut Vec<u8>, line: BlockLine) -> Result<(), AllocError>
    ensures front { IfErr result (λ _. StartsWith out.new.items out.old.items) }
    ensures appended { IfOk result (λ _. out.new.items ≡ out.old.items ++ block_line line) }
{
    out.extend_from_slice(b"block ")?;
    append_number(out, u64::from(line.block))?;
    out.push(b' ')?;
    append_number(out, u64::from(line.size))?;
    out.push(b' ')?;
    append_number(out, u64::from(line.used))?;
    out.push(b'\n')?;
    Ok(())
}

fn append_services(out: &mut Vec<u8>, served: &[Service]) -> Result<(), AllocError>
    ensures front { IfErr result (λ _. StartsWith out.new.items out.old.items) }
    ensures appended { IfOk result (λ _. out.new.items ≡ out.old.items ++ flat_map service_text served.now) }
{
    for service in served {
        append_service(out, service)?;
    }
    Ok(())
}

fn append_service(out: &mut Vec<u8>, service: &Service) -> Result<(), AllocError>
    ensures front { IfErr result (λ _. StartsWith out.new.items out.old.items) }
    ensures appended { IfOk result (λ _. out.new.items ≡ out.old.items ++ service_text service.now) }
{
    append_sections(out, &service.sections)?;
    append_served(out, service)
}

fn append_served(out: &mut Vec<u8>, service: &Service) -> Result<(), AllocError>
    ensures front { IfErr result (λ _. StartsWith out.new.items out.old.items) }
    ensures appended { IfOk result (λ _. out.new.items ≡ out.old.items ++ service_line service.now) }
{
    out.extend_from_slice(b"serve ")?;
    append_number(out, u64::from(service.mutator))?;
    out.push(b' ')?;
    append_number(out, u64::from(service.statement))?;
    out.push(b' ')?;
    append_answer(out, service.answer)?;
    out.push(b'\n')?;
    Ok(())
}

/// Appends the number in decimal, without leading zeros. The only error is want of memory.
pub fn append_number(out: &mut Vec<u8>, number: u64) -> Result<(), AllocError>
    ensures front { IfErr result (λ _. StartsWith out.new.items out.old.items) }
    ensures appended { IfOk result (λ _. out.new.items ≡ out.old.items ++ decimal number) }
{
    if number < 10 {
        out.push(b'0' + number as u8)?;
        return Ok(());
    }
    let mut buffer = Buffer::new();
    out.extend_from_slice(buffer.format(number).as_bytes())
}
