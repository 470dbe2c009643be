ghost use Rattle.std.specs.Prelude.{◌≡◌, ℕ, ◌+◌, ◌==◌, List, length, map, position, IfOk};
ghost use Rattle.zk_show_order.specs.Services.{service_of};
ghost use Rattle.zk_show_chart.specs.Lines.{Place, before_feed, behind_feed, before_space, name_in, front, next_place, said_at, line_said, lines_said};
ghost use Rattle.zk_show_chart.specs.Passing.{IsBehind, Passes};

use std::alloc::Global;
use zk_base::NoMemory;
use zk_show_order::service_number;
use zk_trace::Stood;
use zk_worker::Spot;

/// A line of the text of a trace.
#[derive(Clone, Copy)]
pub struct Line<'a> {
    /// Its number in the whole input, from 1.
    pub number: u32,
    /// The name of the service in whose section it stands.
    pub service: &'a [u8],
    /// The line, without the line feed.
    pub text: &'a [u8],
}

/// Where a byte stands first in a text.
fn place_of(byte: u8, text: &[u8]) -> Option<usize>
    ensures { result ≡ position (λ b. b == byte) text.now }
{
    text.iter().position(|other| *other == byte)
}

/// What stands before the first line feed of a text, and behind it.
fn cut(text: &[u8]) -> (&[u8], &[u8])
    ensures before { result.0.now ≡ before_feed text.now }
    ensures behind { result.1.now ≡ behind_feed text.now }
{
    match place_of(b'\n', text) {
        Some(end) => (&text[..end], &text[end + 1..]),
        None => (text, &[]),
    }
}

/// What stands before the first space of a text.
fn first_word(text: &[u8]) -> &[u8]
    ensures { result.now ≡ before_space text.now }
{
    match place_of(b' ', text) {
        Some(end) => &text[..end],
        None => text,
    }
}

/// What stands before the name of a service in the head of its section.
const SERVICE: &[u8] = b"service ";

/// The name of a service, by the head of its section: the word behind the first.
#[tactic(auto, unfolding(crate::specs::Lines::name_in))]
fn name_in(head: &[u8]) -> &[u8]
    ensures { result.now ≡ name_in head.now }
{
    match head.strip_prefix(SERVICE) {
        Some(words) => first_word(words),
        None => head,
    }
}

/// The text of a trace behind some of its lines.
#[derive(Drop)]
struct Rest<'a> {
    /// The number of the next line in the whole input.
    number: u32,
    text: &'a [u8],
    /// The head of the section that was begun last.
    head: &'a [u8],
    /// Its service; none before the first one of a service.
    service: Option<usize>,
}

impl<'a> Rest<'a> {
    /// A text behind its first two lines, which stand above all services' sections.
    fn new(text: &'a [u8], first_line: u32) -> Rest<'a>
        ensures { IsBehind text.now first_line 2 front result }
    {
        let (head, behind) = cut(text);
        let mut rest = Rest {
            number: first_line.saturating_add(1),
            text: behind,
            head,
            service: None,
        };
        rest.next();
        rest
    }

    /// Passes the next line.
    fn next(&mut self) -> &'a [u8]
        ensures line { result.now ≡ before_feed self.old.text.now }
        ensures passes { Passes self.old self.new }
    {
        let (line, behind) = cut(self.text);
        self.text = behind;
        self.number = self.number.saturating_add(1);
        line
    }

    /// Passes the head of the next section, where a step's service is another one.
    fn enter(&mut self, service: usize)
        ensures { (text : List ℕ) (first : ℕ) (p : Place) → IsBehind text first (p.line + 1) p self.old →
            let q = next_place p service in IsBehind text first q.line q self.new }
    {
        if self.service != Some(service) {
            self.head = self.next();
            self.service = Some(service);
        }
    }

    /// Passes the line of a step.
    fn line(&mut self, spot: Spot) -> Line<'a>
        ensures behind { (text : List ℕ) (first : ℕ) (p : Place) → IsBehind text first (p.line + 1) p self.old →
            let q = next_place p (service_of spot) in IsBehind text first (q.line + 1) q self.new }
        ensures said { (text : List ℕ) (first : ℕ) (p : Place) → IsBehind text first (p.line + 1) p self.old →
            line_said result ≡ said_at text first (next_place p (service_of spot)) }
    {
        self.enter(service_number(spot));
        Line {
            number: self.number,
            service: name_in(self.head),
            text: self.next(),
        }
    }
}

/// The lines of the entries and looks in the text of a trace: behind its first two lines, and behind the head of each section.
pub fn entry_lines<'a>(
    alloc: Global,
    stood: &[Stood],
    text: &'a [u8],
    first_line: u32,
) -> Result<Vec<Line<'a>>, NoMemory>
    ensures len { IfOk result (λ lines. length lines.items ≡ length stood.now) }
    ensures lines { IfOk result (λ lines. map line_said lines.items ≡ lines_said text.now first_line stood.now) }
{
    let mut lines = Vec::with_capacity(alloc, stood.len())?;
    let mut rest = Rest::new(text, first_line);
    for one in stood {
        lines.push(rest.line(one.spot))?;
    }
    Ok(lines)
}
