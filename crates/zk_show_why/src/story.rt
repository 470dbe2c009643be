use crate::lines::{Place, line_of};
use crate::people::{kind_at, name_said, player_name};
use crate::text::{Template, Text, next_piece};
use crate::words::{CALL, CALL_END, LINE, Told, need_words};
use std::alloc::Global;
use zk_base::NoMemory;
use zk_scenario::{Call, Event, Ref, Scenario};
use zk_words::{Head, Need, Word, is_same, row_of};

/// What is said of a run: what, of whom, and where or since when. A part that its words have no place for says nothing.
#[derive(Clone, Copy)]
pub struct Saying {
    pub told: Told,
    pub player: usize,
    /// Whom it waits for.
    pub other: usize,
    pub object: Option<Ref>,
    pub line: Place,
    /// A step, a number of steps, or a time.
    pub number: u64,
    pub need: Need,
    pub call: Word,
}

impl Saying {
    pub fn of(told: Told) -> Saying {
        Saying {
            told,
            player: 0,
            other: 0,
            object: None,
            line: Place { owner: 0, next: 0 },
            number: 0,
            need: Need::Any,
            call: Word::User,
        }
    }

    /// The same parts, of which something else is said.
    pub fn telling(&self, told: Told) -> Saying {
        let mut saying = *self;
        saying.told = told;
        saying
    }

    pub fn player(mut self, player: usize) -> Saying {
        self.player = player;
        self
    }

    pub fn object(mut self, object: Ref) -> Saying {
        self.object = Some(object);
        self
    }

    pub fn line(mut self, line: Place) -> Saying {
        self.line = line;
        self
    }

    pub fn number(mut self, number: u64) -> Saying {
        self.number = number;
        self
    }
}

/// What is said, first to last. A saying for which there was no memory is remembered, and told at the end.
#[derive(Drop)]
pub struct Story {
    sayings: Vec<Saying>,
    refused: bool,
}

impl Story {
    pub fn new(alloc: Global) -> Story {
        Story {
            sayings: Vec::new(alloc),
            refused: false,
        }
    }

    pub fn say(&mut self, saying: Saying) {
        let _known: Option<Ref> = saying.object;
        if self.sayings.push(saying).is_err() {
            self.refused = true;
        }
    }

    /// Its words, if nothing was refused.
    pub fn text(&self, alloc: Global, scenario: &Scenario) -> Result<Vec<u8>, NoMemory> {
        if self.refused {
            return Err(NoMemory);
        }
        let mut text = Text::new(alloc);
        for saying in &self.sayings {
            put_saying(&mut text, scenario, saying);
        }
        text.whole()
    }
}

/// Appends the words of a saying, its parts in their places.
fn put_saying(text: &mut Text, scenario: &Scenario, saying: &Saying) {
    let mut template = Template::of(saying.told.words());
    while let Some(piece) = next_piece(&mut template) {
        text.put(piece.words);
        put_part(text, scenario, saying, piece.place);
    }
}

fn put_part(text: &mut Text, scenario: &Scenario, saying: &Saying, place: &[u8]) {
    if is_same(place, b"player") {
        text.put(player_name(scenario, saying.player));
    } else if is_same(place, b"other") {
        text.put(player_name(scenario, saying.other));
    } else if is_same(place, b"number") {
        text.put_number(saying.number);
    } else if is_same(place, b"line") {
        put_line(text, scenario, saying.line);
    } else if is_same(place, b"need") {
        text.put(need_words(saying.need));
    } else if is_same(place, b"call") {
        text.put(row_of(Head::Call(saying.call)).first);
    } else if is_same(place, b"events") {
        put_events(text, scenario, saying.line);
    } else if let Some(object) = saying.object {
        put_of_object(text, scenario, object, place);
    }
}

// The name of an object, or what it is.
fn put_of_object(text: &mut Text, scenario: &Scenario, object: Ref, place: &[u8]) {
    if is_same(place, b"object") {
        text.put(name_said(scenario, &object));
    } else if is_same(place, b"kind") {
        text.put(kind_at(scenario, object));
    }
}

// The number of a line, and its call.
fn put_line(text: &mut Text, scenario: &Scenario, place: Place) {
    text.put(LINE);
    text.put_number(line_of(scenario, place));
    if let Some(call) = place.call(scenario) {
        text.put(CALL);
        text.put_call(scenario.decls(), call);
        text.put(CALL_END);
    }
}

// The events of a poll, a space in front of each.
fn put_events(text: &mut Text, scenario: &Scenario, place: Place) {
    if let Some(Call::Poll(_, events)) = place.call(scenario) {
        for event in events.items() {
            put_event(text, scenario, event);
        }
    }
}

fn put_event(text: &mut Text, scenario: &Scenario, event: &Event) {
    match event {
        Event::Sem(sem) => {
            text.put(b" sem:");
            text.put(name_said(scenario, sem));
        }
        Event::Msgq(queue) => {
            text.put(b" msgq:");
            text.put(name_said(scenario, queue));
        }
        Event::Sig(signal) => {
            text.put(b" sig:");
            text.put(name_said(scenario, signal));
        }
        _ => {}
    }
}
