use crate::Accepted;
use crate::before::Before;
use crate::misnamed::is_met;
use crate::text::{Template, Text, next_piece};
use crate::words::{
    FIRST_NAME, FORM, FORM_END, MORE_NAMES, NEXT_NAME, NO_NAME, need_words, slot_words,
};
use zk_line::name_of;
use zk_words::{Head, Rest, choice_text, is_same, row_of};

// How many names are listed at most.
const MOST_LISTED: usize = 8;

/// Appends what would be accepted, where these objects are declared before.
pub fn put_accepted(text: &mut Text, before: Option<&Before>, accepted: Accepted) {
    let mut template = Template::of(accepted.words());
    while let Some(piece) = next_piece(&mut template) {
        text.put(piece.words);
        if !piece.place.is_empty() {
            put_part(text, before, accepted, piece.place);
        }
    }
}

fn put_part(text: &mut Text, before: Option<&Before>, accepted: Accepted, place: &[u8]) {
    match accepted {
        Accepted::Form(head) => put_form(text, head),
        Accepted::Object(need) if is_same(place, b"need") => text.put(need_words(need)),
        Accepted::Number(least, most) => {
            let number = if is_same(place, b"least") {
                least
            } else {
                most
            };
            text.put_number(u64::from(number));
        }
        Accepted::Either(choice) => text.put(choice_text(choice, is_same(place, b"first"))),
        Accepted::Message(Some(size)) => {
            let each: u64 = if is_same(place, b"size") { 1 } else { 2 };
            text.put_number(each.saturating_mul(size as u64));
        }
        _ => put_names(text, before, accepted),
    }
}

// Those that are declared, in order.
fn put_names(text: &mut Text, before: Option<&Before>, accepted: Accepted) {
    let Some(before) = before else {
        return;
    };
    let mut listed: usize = 0;
    for decl in before.scenario.decls() {
        if is_met(accepted, decl) {
            if MOST_LISTED <= listed {
                return text.put(MORE_NAMES);
            }
            text.put(if listed == 0 { FIRST_NAME } else { NEXT_NAME });
            text.put(name_of(decl));
            listed = listed.saturating_add(1);
        }
    }
    if listed == 0 {
        text.put(NO_NAME);
    }
}

/// Appends the form of a line.
pub fn put_form(text: &mut Text, head: Head) {
    let row = row_of(head);
    text.put(FORM);
    text.put(row.first);
    for slot in row.slots {
        text.put(b" ");
        text.put(slot_words(*slot));
    }
    match row.rest {
        Rest::Nothing => {}
        Rest::Maybe(slot) => put_more(text, slot_words(slot), b"]"),
        Rest::Many(slot) => put_more(text, slot_words(slot), b" ..]"),
        Rest::Events => text.put(b" EVENT .."),
    }
    text.put(FORM_END);
}

// What may stand behind the others.
fn put_more(text: &mut Text, slot: &[u8], end: &[u8]) {
    text.put(b" [");
    text.put(slot);
    text.put(end);
}
