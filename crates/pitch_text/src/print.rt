//! Prints an entry of a schedule in its canonical words, with no field that has its default.

ghost use Rattle.std.specs.Prelude.{◌≡◌, ◌++◌, ◌∷◌, [], OnOk, OnErr, Ok, codes, decimal, map};
ghost use Rattle.pitch_fields.specs.Price.{price_digits};
ghost use Rattle.pitch_text.specs.Printing.{spaced, hidden_words, mpid_words, number_words};
ghost use Rattle.pitch_text.specs.Printing.{order_words, terms_words, setup_words, command_words};
ghost use Rattle.pitch_text.specs.Printing.{verb_words, entry_text, at_words, line_word};
ghost use Rattle.pitch_text.specs.Printing.{session_word, count_word, name_of};
ghost use Rattle.pitch_text.specs.ScheduleGrammar.{entry as entry_grammar};
ghost use Rattle.text_lines.specs.Text.{entries_of};
ghost use Rattle.pitch_text.specs.WellFormed.{IsWellFormed};

use crate::command::Command;
use crate::defaults::{DEFAULT_DAY, DEFAULT_HOLD, DEFAULT_KEPT, DEFAULT_MINUTE, DEFAULT_SECOND};
use crate::verb::{ScheduleEntry, Session, Verb};
use pitch_fields::{OutOfMemory, Price, Symbol, number_text, price_text};
use pitch_io::Line;
use pitch_messages::Order;
use text_lines::{LONGEST_LINE, length_before};

/// Appends the canonical line of a well-formed entry, without a line feed: one space between
/// fields, no field that has its default. After OutOfMemory the text is as before.
#[tactic(auto, using(crate::proofs::LineLemmas::text_again))]
pub fn print_entry(entry: &ScheduleEntry, out: &mut Vec<u8>) -> Result<(), OutOfMemory>
    requires { IsWellFormed entry.now.unit entry.now.verb }
    ensures line { OnOk result
        (out.new.items ≡ out.old.items ++ entry_text entry.now.unit entry.now.verb) }
    // That line, read as a text, says the unit and the verb again.
    ensures reads_back { entries_of entry_grammar (entry_text entry.now.unit entry.now.verb)
        ≡ Ok ((1, (entry.now.unit, entry.now.verb)) ∷ []) }
    ensures kept { OnErr result (out.new.items ≡ out.old.items) }
{
    push_line(entry, out)
}

#[tactic(auto, unfolding(crate::specs::Printing::entry_text))]
fn push_line(entry: &ScheduleEntry, out: &mut Vec<u8>) -> Result<(), OutOfMemory>
    ensures line { OnOk result
        (out.new.items ≡ out.old.items ++ entry_text entry.now.unit entry.now.verb) }
    ensures kept { OnErr result (out.new.items ≡ out.old.items) }
{
    let mut line = Vec::with_capacity(*out.allocator(), LONGEST_LINE)?;
    push_digits(&mut line, u64::from(entry.unit))?;
    push_verb(&mut line, &entry.verb)?;
    out.extend_from_slice(&line)?;
    Ok(())
}

// The words of a verb, each with a space before it.
#[tactic(auto, using(crate::proofs::WordLemmas::spaced_append))]
fn push_verb(line: &mut Vec<u8>, verb: &Verb) -> Result<(), OutOfMemory>
    ensures { OnOk result (line.new.items ≡ line.old.items ++ spaced (verb_words verb.now)) }
{
    match verb {
        Verb::Command(command) => push_command(line, command),
        Verb::Setup {
            hold,
            kept,
            second,
            minute,
            day,
        } => push_setup(line, *hold, *kept, *second, *minute, *day),
        Verb::Flush => push_word(line, b"flush"),
        Verb::Beat => push_word(line, b"beat"),
        Verb::Deliver {
            line: source,
            number,
        } => push_delivery(line, *source, Some(*number)),
        Verb::Rest { line: source } => push_delivery(line, *source, None),
        Verb::Connect(session) => push_session(line, *session, b"open"),
        Verb::Cut(session) => push_session(line, *session, b"cut"),
        Verb::Up { session, bytes } => push_carried(line, *session, b"up", *bytes),
        Verb::Down { session, bytes } => push_carried(line, *session, b"down", *bytes),
        Verb::Advertise => push_word(line, b"advertise"),
        Verb::Tick => push_word(line, b"tick"),
        Verb::Show => push_word(line, b"show"),
        Verb::Quote { symbol } => push_quote(line, *symbol),
    }
}

// The words of an `open`.
#[tactic(auto, using(crate::proofs::WordLemmas::spaced_append))]
fn push_setup(
    line: &mut Vec<u8>,
    hold: u32,
    kept: u32,
    second: u32,
    minute: u32,
    day: u32,
) -> Result<(), OutOfMemory>
    ensures { OnOk result (line.new.items ≡ line.old.items
        ++ spaced (codes "open" ∷ setup_words hold kept second minute day)) }
{
    push_word(line, b"open")?;
    push_named(line, b"hold=", DEFAULT_HOLD, hold)?;
    push_named(line, b"kept=", DEFAULT_KEPT, kept)?;
    push_named(line, b"second=", DEFAULT_SECOND, second)?;
    push_named(line, b"minute=", DEFAULT_MINUTE, minute)?;
    push_named(line, b"day=", DEFAULT_DAY, day)
}

// A line's word, and the number of a datagram, or that the rest is meant.
fn push_delivery(line: &mut Vec<u8>, source: Line, number: Option<u32>) -> Result<(), OutOfMemory>
    ensures { OnOk result (line.new.items ≡ line.old.items
        ++ spaced (line_word source ∷ count_word (codes "rest") number ∷ [])) }
{
    push_line_word(line, source)?;
    push_count(line, b"rest", number)
}

// A session's word, the word of a direction, and how many bytes are carried.
fn push_carried(
    line: &mut Vec<u8>,
    session: Session,
    word: &[u8],
    bytes: Option<u32>,
) -> Result<(), OutOfMemory>
    ensures { OnOk result (line.new.items ≡ line.old.items
        ++ spaced (session_word session ∷ word.now ∷ count_word (codes "all") bytes ∷ [])) }
{
    push_session(line, session, word)?;
    push_count(line, b"all", bytes)
}

fn push_quote(line: &mut Vec<u8>, symbol: Symbol) -> Result<(), OutOfMemory>
    ensures { OnOk result
        (line.new.items ≡ line.old.items ++ spaced (codes "quote" ∷ name_of symbol ∷ [])) }
{
    push_word(line, b"quote")?;
    push_symbol(line, symbol)
}

// The words of a command, each with a space before it.
#[tactic(auto, using(crate::proofs::WordLemmas::spaced_append))]
fn push_command(line: &mut Vec<u8>, command: &Command) -> Result<(), OutOfMemory>
    ensures { OnOk result (line.new.items ≡ line.old.items ++ spaced (command_words command.now)) }
{
    match *command {
        Command::Time { second } => push_numbers(line, b"time", &[u64::from(second)]),
        Command::Add { order, offset } => push_add(line, &order, offset),
        Command::Exec {
            id,
            quantity,
            execution,
            offset,
        } => push_plain(line, b"exec", &[id, u64::from(quantity), execution], offset),
        Command::ExecAt {
            id,
            quantity,
            remaining,
            execution,
            price,
            offset,
        } => push_execat(line, id, quantity, remaining, execution, price, offset),
        Command::Reduce {
            id,
            quantity,
            offset,
        } => push_plain(line, b"reduce", &[id, u64::from(quantity)], offset),
        Command::Modify {
            id,
            quantity,
            price,
            display,
            offset,
        } => push_modify(line, id, quantity, price, display, offset),
        Command::Delete { id, offset } => push_plain(line, b"delete", &[id], offset),
        Command::Trade {
            order,
            execution,
            offset,
        } => push_trade(line, &order, execution, offset),
        Command::Break { execution, offset } => push_plain(line, b"break", &[execution], offset),
        Command::Clear { offset } => push_plain(line, b"clear", &[], offset),
        Command::EndSession { offset } => push_plain(line, b"end", &[], offset),
        Command::Status {
            symbol,
            halt,
            sho,
            offset,
        } => push_status(line, symbol, halt, sho, offset),
    }
}

#[tactic(auto, using(crate::proofs::WordLemmas::spaced_append))]
fn push_execat(
    line: &mut Vec<u8>,
    id: u64,
    quantity: u32,
    remaining: u32,
    execution: u64,
    price: Price,
    offset: u32,
) -> Result<(), OutOfMemory>
    ensures { OnOk result (line.new.items ≡ line.old.items ++ spaced (command_words
        (Command.ExecAt id quantity remaining execution price offset))) }
{
    let (quantity, remaining) = (u64::from(quantity), u64::from(remaining));
    push_numbers(line, b"execat", &[id, quantity, remaining, execution])?;
    push_price(line, price)?;
    push_offset(line, offset)
}

#[tactic(auto, using(crate::proofs::WordLemmas::spaced_append))]
fn push_modify(
    line: &mut Vec<u8>,
    id: u64,
    quantity: u32,
    price: Price,
    display: bool,
    offset: u32,
) -> Result<(), OutOfMemory>
    ensures { OnOk result (line.new.items ≡ line.old.items
        ++ spaced (command_words (Command.Modify id quantity price display offset))) }
{
    push_numbers(line, b"modify", &[id, u64::from(quantity)])?;
    push_price(line, price)?;
    push_hidden(line, display)?;
    push_offset(line, offset)
}

#[tactic(auto, using(crate::proofs::WordLemmas::spaced_append))]
fn push_trade(
    line: &mut Vec<u8>,
    order: &Order,
    execution: u64,
    offset: u32,
) -> Result<(), OutOfMemory>
    ensures { OnOk result (line.new.items ≡ line.old.items
        ++ spaced (command_words (Command.Trade order.now execution offset))) }
{
    push_order(line, b"trade", order)?;
    push_number(line, execution)?;
    push_offset(line, offset)
}

#[tactic(auto, using(crate::proofs::WordLemmas::spaced_append))]
fn push_status(
    line: &mut Vec<u8>,
    symbol: Symbol,
    halt: u8,
    sho: u8,
    offset: u32,
) -> Result<(), OutOfMemory>
    ensures { OnOk result (line.new.items ≡ line.old.items
        ++ spaced (command_words (Command.Status symbol halt sho offset))) }
{
    push_word(line, b"status")?;
    push_symbol(line, symbol)?;
    push_word(line, &[halt])?;
    push_word(line, &[sho])?;
    push_offset(line, offset)
}

#[tactic(auto, using(crate::proofs::WordLemmas::add_words))]
fn push_add(line: &mut Vec<u8>, order: &Order, offset: u32) -> Result<(), OutOfMemory>
    ensures { OnOk result
        (line.new.items ≡ line.old.items ++ spaced (command_words (Command.Add order.now offset))) }
{
    push_order(line, b"add", order)?;
    push_hidden(line, order.display)?;
    push_participant(line, &order.participant)?;
    push_offset(line, offset)
}

// A word, numbers and an offset.
#[tactic(auto, using(crate::proofs::WordLemmas::spaced_append))]
fn push_plain(
    line: &mut Vec<u8>,
    word: &[u8],
    numbers: &[u64],
    offset: u32,
) -> Result<(), OutOfMemory>
    ensures { OnOk result (line.new.items ≡ line.old.items
        ++ spaced (word.now ∷ (map decimal numbers.now ++ at_words offset))) }
{
    push_numbers(line, word, numbers)?;
    push_offset(line, offset)
}

// The required words of an add or a trade.
fn push_order(line: &mut Vec<u8>, word: &[u8], order: &Order) -> Result<(), OutOfMemory>
    ensures { OnOk result (line.new.items
        ≡ line.old.items ++ spaced (order_words word.now order.now)) }
{
    push_word(line, word)?;
    push_number(line, order.id)?;
    push_word(line, &[order.side.byte()])?;
    push_terms(line, order)
}

fn push_terms(line: &mut Vec<u8>, order: &Order) -> Result<(), OutOfMemory>
    ensures { OnOk result (line.new.items ≡ line.old.items ++ spaced (terms_words order.now)) }
{
    push_number(line, u64::from(order.quantity))?;
    push_symbol(line, order.symbol)?;
    push_price(line, order.price)
}

fn push_symbol(line: &mut Vec<u8>, symbol: Symbol) -> Result<(), OutOfMemory>
    ensures { OnOk result (line.new.items ≡ line.old.items ++ 32 ∷ name_of symbol) }
{
    let bytes = symbol.bytes();
    push_word(line, &bytes[..length_before(&bytes, b' ')])
}

// ---- optional fields, which have no word where they have their default

fn push_hidden(line: &mut Vec<u8>, display: bool) -> Result<(), OutOfMemory>
    ensures { OnOk result (line.new.items ≡ line.old.items ++ spaced (hidden_words display)) }
{
    if !display {
        push_word(line, b"hidden")?;
    }
    Ok(())
}

fn push_participant(line: &mut Vec<u8>, participant: &[u8; 4]) -> Result<(), OutOfMemory>
    ensures { OnOk result (line.new.items ≡ line.old.items ++ spaced (mpid_words participant.now)) }
{
    if participant.as_slice() != b"    ".as_slice() {
        push_word(line, b"mpid=")?;
        let length = length_before(participant, b' ');
        line.extend_from_slice(&participant[..length])?;
    }
    Ok(())
}

fn push_offset(line: &mut Vec<u8>, offset: u32) -> Result<(), OutOfMemory>
    ensures { OnOk result (line.new.items ≡ line.old.items ++ spaced (at_words offset)) }
{
    push_named(line, b"at=", 0, offset)
}

// `name=` and a number, where it is not the default.
fn push_named(line: &mut Vec<u8>, name: &[u8], default: u32, number: u32) -> Result<(), OutOfMemory>
    ensures { OnOk result
        (line.new.items ≡ line.old.items ++ spaced (number_words name.now default number)) }
{
    if number == default {
        return Ok(());
    }
    push_word(line, name)?;
    push_digits(line, u64::from(number))
}

// ---- single words, each with a space before it

fn push_line_word(line: &mut Vec<u8>, source: Line) -> Result<(), OutOfMemory>
    ensures { OnOk result (line.new.items ≡ line.old.items ++ 32 ∷ line_word source) }
{
    match source {
        Line::A => push_word(line, b"a"),
        Line::B => push_word(line, b"b"),
        Line::Gap => push_word(line, b"g"),
    }
}

// A session's word and the one after it.
fn push_session(line: &mut Vec<u8>, session: Session, word: &[u8]) -> Result<(), OutOfMemory>
    ensures { OnOk result
        (line.new.items ≡ line.old.items ++ spaced (session_word session ∷ word.now ∷ [])) }
{
    match session {
        Session::Grp => push_word(line, b"grp")?,
        Session::Spin => push_word(line, b"spin")?,
    }
    push_word(line, word)
}

// A number, or the word in its place.
fn push_count(line: &mut Vec<u8>, word: &[u8], count: Option<u32>) -> Result<(), OutOfMemory>
    ensures { OnOk result (line.new.items ≡ line.old.items ++ 32 ∷ count_word word.now count) }
{
    match count {
        None => push_word(line, word),
        Some(number) => push_number(line, u64::from(number)),
    }
}

// A word and numbers.
fn push_numbers(line: &mut Vec<u8>, word: &[u8], numbers: &[u64]) -> Result<(), OutOfMemory>
    ensures { OnOk result
        (line.new.items ≡ line.old.items ++ spaced (word.now ∷ map decimal numbers.now)) }
{
    push_word(line, word)?;
    for number in numbers {
        push_number(line, *number)?;
    }
    Ok(())
}

fn push_number(line: &mut Vec<u8>, number: u64) -> Result<(), OutOfMemory>
    ensures { OnOk result (line.new.items ≡ line.old.items ++ 32 ∷ decimal number) }
{
    line.push(b' ')?;
    push_digits(line, number)
}

fn push_price(line: &mut Vec<u8>, price: Price) -> Result<(), OutOfMemory>
    ensures { OnOk result (line.new.items ≡ line.old.items ++ 32 ∷ price_digits price) }
{
    let mut text = [0u8; 24];
    let count = price_text(price, &mut text);
    push_word(line, &text[..count])
}

fn push_word(line: &mut Vec<u8>, word: &[u8]) -> Result<(), OutOfMemory>
    ensures { OnOk result (line.new.items ≡ line.old.items ++ 32 ∷ word.now) }
{
    line.push(b' ')?;
    line.extend_from_slice(word)?;
    Ok(())
}

// A number in decimal, without a space before it.
fn push_digits(line: &mut Vec<u8>, number: u64) -> Result<(), OutOfMemory>
    ensures { OnOk result (line.new.items ≡ line.old.items ++ decimal number) }
{
    let mut text = [0u8; 24];
    let count = number_text(number, &mut text);
    line.extend_from_slice(&text[..count])?;
    Ok(())
}
