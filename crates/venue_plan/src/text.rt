//! The text of the commands, which is given second by second.

ghost use Rattle.std.specs.Prelude.{◌≡◌, ◌+◌, ◌*◌, ◌-◌, ◌<◌, ◌≤◌, ◌↔◌, ◌++◌, ◌∷◌, [], length};
ghost use Rattle.std.specs.Prelude.{OnOk, OnErr, IfOk, IsTrue};
ghost use Rattle.pitch_text.specs.declared.verb.Verb.TheVariants.{Command as CommandVerb};
ghost use Rattle.pitch_text.specs.Printing.{command_words, entry_text, spaced};
ghost use Rattle.pitch_text.specs.WellFormed.{IsCommand};
ghost use Rattle.venue_net.specs.VenueCalls.{ReadWithin, read_in};
ghost use Rattle.venue_plan.specs.Text.{HasAnswer, IsSamePlan, due_of, left_of, made_line};
ghost use Rattle.venue_plan.specs.Text.{made_lines, most_made, most_units, page_limit, plan_begun};
ghost use Rattle.venue_plan.specs.Text.{second_passed};

use crate::made::made_command;
use pitch_fields::{OutOfMemory, number_text};
use pitch_text::{Command, ScheduleEntry, Verb, print_entry};
use std::alloc::Global;
use std::marker::Model;
use venue_net::InputRead;

// A page that has more bytes takes no more lines.
const PAGE: usize = 65_336;

// Writes the words of a command behind a byte for a unit.
#[tactic(auto, using(crate::proofs::Lines::of_unit_one))]
fn put_words(command: Command, words: &mut Vec<u8>) -> Result<(), OutOfMemory>
    requires { IsCommand command }
    ensures { OnOk result (words.new.items ≡ 49 ∷ spaced (command_words command)) }
{
    let entry = ScheduleEntry {
        line: 0,
        unit: 1,
        verb: Verb::Command(command),
    };
    words.clear();
    print_entry(&entry, words)
}

// Writes the line of a unit and a command, and a line feed.
#[tactic(auto, unfolding(pitch_text::specs::Printing::entry_text))]
fn put_line(
    unit: u8,
    command: Command,
    words: &mut Vec<u8>,
    line: &mut Vec<u8>,
) -> Result<(), OutOfMemory>
    requires { IsCommand command }
    ensures { OnOk result (line.new.items ≡ entry_text unit (CommandVerb command) ++ 10 ∷ []) }
{
    put_words(command, words)?;
    let mut digits = [0; 24];
    let length = number_text(u64::from(unit), &mut digits);
    line.clear();
    line.extend_from_slice(&digits[..length])?;
    line.extend_from_slice(&words[1..])?;
    line.push(b'\n')?;
    Ok(())
}

// What makes the lines, one after another.
#[derive(Drop)]
struct LineMaker {
    number: u64,
    units: Vec<u8>,
    count: u32,
    // How many lines were made.
    made: u64,
    // A command's words, and its line.
    words: Vec<u8>,
    line: Vec<u8>,
}

impl LineMaker {
    // Appends the next line to a page.
    #[tactic(auto, unfolding(crate::specs::Text::made_line))]
    fn next_line(&mut self, page: &mut Vec<u8>) -> Result<(), OutOfMemory>
        requires most { self.old.count ≤ most_made }
        requires few { length self.old.units.items ≤ most_units }
        requires left { self.old.made < self.old.count * length self.old.units.items }
        ensures made { OnOk result (self.new.made ≡ self.old.made + 1) }
        ensures line { OnOk result (page.new.items ≡ page.old.items
            ++ made_line self.old.number self.old.units.items self.old.count self.old.made) }
        ensures kept { OnErr result (page.new.items ≡ page.old.items) }
        ensures same_made { OnErr result (self.new.made ≡ self.old.made) }
        ensures number { self.new.number ≡ self.old.number }
        ensures units { self.new.units.items ≡ self.old.units.items }
        ensures count { self.new.count ≡ self.old.count }
    {
        let units = self.units.len() as u64;
        let unit = self.units[(self.made % units) as usize];
        let index = (self.made / units + 1) as u32;
        let command = made_command(self.number, unit, self.count, index);
        put_line(unit, command, &mut self.words, &mut self.line)?;
        page.extend_from_slice(&self.line)?;
        self.made += 1;
        Ok(())
    }
}

// Appends lines to a page until it is full, or as many were made.
fn fill(maker: &mut LineMaker, until: u64, page: &mut Vec<u8>) -> Result<(), OutOfMemory>
    requires most { maker.old.count ≤ most_made }
    requires few { length maker.old.units.items ≤ most_units }
    requires made { maker.old.made ≤ until }
    requires left { until ≤ maker.old.count * length maker.old.units.items }
    ensures from { maker.old.made ≤ maker.new.made }
    ensures until { maker.new.made ≤ until }
    ensures lines { page.new.items ≡ page.old.items ++ made_lines maker.old.number
        maker.old.units.items maker.old.count maker.old.made (maker.new.made - maker.old.made) }
    ensures all { OnOk result (length page.new.items ≤ page_limit → maker.new.made ≡ until) }
    ensures number { maker.new.number ≡ maker.old.number }
    ensures units { maker.new.units.items ≡ maker.old.units.items }
    ensures count { maker.new.count ≡ maker.old.count }
{
    'lines: while maker.made < until && page.len() <= PAGE {
        maker.next_line(page)?;
    }
    Ok(())
}

/// The text of the commands that a venue makes itself, which is given second by second: what is
/// left of it. The lines stand command by command, and of each the units in turn.
#[derive(Drop)]
pub struct PlanText {
    maker: LineMaker,
    rate: u32,
    // How many commands of each unit are due.
    due: u32,
    // Lines that were made, and how many of their bytes were given.
    page: Vec<u8>,
    given: usize,
}

impl Model for PlanText {
    ghost use Rattle.std.specs.Prelude.{drop};
    ghost use Rattle.venue_plan.specs.Text.{IsPlanKept, PlanState};

    ghost Value = { PlanState };

    ghost view = { λ t. record {
      number = t.maker.number;
      units = t.maker.units.items;
      count = t.maker.count;
      rate = t.rate;
      due = t.due;
      made = t.maker.made;
      left = drop t.given t.page.items;
    } };

    ghost invariant = { λ t. IsPlanKept t.maker.units.items t.maker.count t.due t.maker.made
        t.given t.page.items };
}

impl PlanText {
    /// The text of so many commands for each of these units, of which so many a second are due, the
    /// first ones at once. It takes no memory.
    pub fn make(alloc: Global, number: u64, units: Vec<u8>, count: u32, rate: u32) -> PlanText
        requires some { 0 < length units.items }
        requires few { length units.items ≤ most_units }
        requires most { count ≤ most_made }
        ensures { result ≡ plan_begun number units.items count rate }
    {
        PlanText {
            maker: LineMaker {
                number,
                units,
                count,
                made: 0,
                words: Vec::new(alloc),
                line: Vec::new(alloc),
            },
            rate,
            due: rate.min(count),
            page: Vec::new(alloc),
            given: 0,
        }
    }

    /// One second more has passed.
    pub fn second(&mut self)
        ensures { self.new ≡ second_passed self.old }
    {
        self.due = self.due.saturating_add(self.rate).min(self.maker.count);
    }

    // Makes the next page, where all of the last one was given.
    fn turn_page(&mut self) -> Result<(), OutOfMemory>
        requires { self.old.left ≡ [] }
        ensures left { left_of self.new ≡ left_of self.old }
        ensures due { due_of self.new ≡ due_of self.old }
        ensures some { OnOk result (self.new.left ≡ [] → due_of self.new ≡ []) }
        ensures same { IsSamePlan self.old self.new }
    {
        let until = u64::from(self.due) * self.maker.units.len() as u64;
        self.page.clear();
        self.given = 0;
        let filled = fill(&mut self.maker, until, &mut self.page);
        if self.page.is_empty() { filled } else { Ok(()) }
    }

    // Whether all lines were made.
    fn is_made(&self) -> bool
        ensures { IsTrue result
            ↔ (self.now.made ≡ self.now.count * length self.now.units) }
    {
        self.maker.made == u64::from(self.maker.count) * self.maker.units.len() as u64
    }

    // Gives the next bytes of the page.
    fn give(&mut self, into: &mut [u8]) -> InputRead
        requires room { 0 < length into.old }
        requires page { self.old.left ≡ [] → due_of self.old ≡ [] }
        ensures count { ReadWithin result into.new }
        ensures left { left_of self.old ≡ read_in result into.new ++ left_of self.new }
        ensures due { due_of self.old ≡ read_in result into.new ++ due_of self.new }
        ensures answer { HasAnswer self.old result }
        ensures same { IsSamePlan self.old self.new }
    {
        let left = &self.page[self.given..];
        if left.is_empty() {
            return if self.is_made() {
                InputRead::Ended
            } else {
                InputRead::Quiet
            };
        }
        let count = left.len().min(into.len());
        into[..count].copy_from_slice(&left[..count]);
        self.given += count;
        InputRead::Got(count)
    }

    /// Gives the next bytes that are due, at the start of the slice: as many as there is room for,
    /// or those of a page. It is `Quiet` where nothing more is due before the next second, `Ended`
    /// where all was given, and never `Failed`.
    ///
    /// After `OutOfMemory` nothing was given, and the call can be made again.
    pub fn read(&mut self, into: &mut [u8]) -> Result<InputRead, OutOfMemory>
        requires { 0 < length into.old }
        ensures count { IfOk result (λ answer. ReadWithin answer into.new) }
        // What is given is what comes next of the whole text, and of what is due of it.
        ensures left { IfOk result
            (λ answer. left_of self.old ≡ read_in answer into.new ++ left_of self.new) }
        ensures due { IfOk result
            (λ answer. due_of self.old ≡ read_in answer into.new ++ due_of self.new) }
        ensures answer { IfOk result (HasAnswer self.old) }
        ensures kept { OnErr result (left_of self.new ≡ left_of self.old) }
        ensures same { IsSamePlan self.old self.new }
    {
        if self.given == self.page.len() {
            self.turn_page()?;
        }
        Ok(self.give(into))
    }
}
