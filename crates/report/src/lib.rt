// What is printed of captured lines.
#![tactic(auto)]

ghost use Rattle.std.specs.Prelude.{◌≡◌, ◌<◌, [], ◌∷◌, length, position, IfSome, MatchOption, OnOk, ◌==◌};
ghost use Rattle.std.specs.Iterator.{YieldsFirstRef, item_count};
ghost use Rattle.report.specs.Lines.{lines, first_line, both_seen};
ghost use Rattle.report.specs.Report.{Added, verdict_text, reason_text, line_text, counted, tally_text};

use capture::Verdict;
use fields::Unreadable;
use figures::Sum;
use std::fmt;

fn find_line_feed(text: &[u8]) -> Option<usize>
    ensures { result ≡ position (λ c. c == 10) text.now }
{
    text.iter().position(|c| *c == b'\n')
}

// Splits the first line off a text, without its line feed. Answers nothing where the text is empty.
pub fn split_line(text: &[u8]) -> Option<(&[u8], &[u8])>
    ensures first { both_seen result ≡ first_line text.now }
    ensures others { MatchOption result (lines text.now ≡ []) (λ p. lines text.now ≡ p.0.now ∷ lines p.1.now) }
    ensures shorter { IfSome result (λ p. length p.1.now < length text.now) }
{
    match find_line_feed(text) {
        Some(end) => Some((&text[..end], &text[end + 1..])),
        None if text.is_empty() => None,
        None => Some((text, &text[text.len()..])),
    }
}

// The lines of a text, one after another, without their line feeds.
#[derive(Drop)]
pub struct Lines<'a>(pub &'a [u8]);

impl<'a> Iterator for Lines<'a> {
    type Item = &'a [u8];

    ghost next_gives = { YieldsFirstRef (λ s. lines s.0.now) };

    ghost remaining = { item_count (λ s. lines s.0.now) };

    fn next(&mut self) -> Option<&'a [u8]> {
        let (line, rest) = split_line(self.0)?;
        self.0 = rest;
        Some(line)
    }
}

// How many lines were right, wrong and unreadable. Each count stays at the largest number of 64 bits.
#[derive(Clone, Copy, PartialEq, Eq, Debug, Default)]
pub struct Tally {
    pub right: u64,
    pub wrong: u64,
    pub unreadable: u64,
}

impl Tally {
    pub fn new() -> Tally
        ensures { result ≡ record { right = 0; wrong = 0; unreadable = 0 } }
    {
        Tally::default()
    }

    pub fn count(&mut self, examined: &Result<Verdict, Unreadable>)
        ensures { self.new ≡ counted self.old examined.now }
    {
        match examined {
            Ok(verdict) if verdict.right => self.right = self.right.saturating_add(1),
            Ok(_) => self.wrong = self.wrong.saturating_add(1),
            Err(_) => self.unreadable = self.unreadable.saturating_add(1),
        }
    }
}

fn add_verdict(out: &mut String, number: u64, verdict: Verdict) -> fmt::Result
    ensures { OnOk result (Added out.old (verdict_text number verdict) out.new) }
{
    let word = if verdict.right { "right" } else { "wrong" };
    let page = verdict.page;
    let offset = verdict.offset;
    let sent = Sum(verdict.sum_sent);
    let worked_out = Sum(verdict.sum_worked_out);
    writeln!(
        out,
        "{number} {word} page {page} offset {offset} sum sent {sent} worked out {worked_out}"
    )?;
    Ok(())
}

fn add_reason(out: &mut String, number: u64, why: Unreadable) -> fmt::Result
    ensures { OnOk result (Added out.old (reason_text number why) out.new) }
{
    writeln!(out, "{number} unreadable: {why}")?;
    Ok(())
}

// Adds to a text what is printed of a line. Fails where memory does.
pub fn add_line(out: &mut String, number: u64, examined: Result<Verdict, Unreadable>) -> fmt::Result
    ensures { OnOk result (Added out.old (line_text number examined) out.new) }
{
    match examined {
        Ok(verdict) => add_verdict(out, number, verdict),
        Err(why) => add_reason(out, number, why),
    }
}

// Adds to a text how many lines were right, wrong and unreadable.
pub fn add_tally(out: &mut String, tally: &Tally) -> fmt::Result
    ensures { OnOk result (Added out.old (tally_text tally.now) out.new) }
{
    let Tally {
        right,
        wrong,
        unreadable,
    } = *tally;
    writeln!(out, "{right} right, {wrong} wrong, {unreadable} unreadable")?;
    Ok(())
}
