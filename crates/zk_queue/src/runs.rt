ghost use Rattle.std.specs.Prelude.{◌≡◌, position};
ghost use Rattle.std.specs.List.{list_any};
ghost use Rattle.zk_queue.specs.Open.{is_run_of, runs_number};

use crate::Ticket;

/// Whether this run is the item's.
fn is_run_of(run: Option<Ticket>, item: u32) -> bool
    ensures { result ≡ is_run_of item run }
{
    match run {
        None => false,
        Some(ticket) => ticket.item == item,
    }
}

/// Whether one of these runs is the item's.
pub fn is_any_of(runs: &[Option<Ticket>], item: u32) -> bool
    ensures { result ≡ list_any (is_run_of item) runs.now }
{
    runs.iter().any(|run| is_run_of(*run, item))
}

/// The first queue whose run is the item's.
pub fn queue_of(runs: &[Option<Ticket>], item: u32) -> Option<usize>
    ensures { result ≡ position (is_run_of item) runs.now }
{
    runs.iter().position(|run| is_run_of(*run, item))
}

/// Whether this run has this number.
fn runs_number(run: Option<Ticket>, number: u64) -> bool
    ensures { result ≡ runs_number number run }
{
    match run {
        None => false,
        Some(ticket) => ticket.number == number,
    }
}

/// Whether one of these runs has this number.
pub fn has_number(runs: &[Option<Ticket>], number: u64) -> bool
    ensures { result ≡ list_any (runs_number number) runs.now }
{
    runs.iter().any(|run| runs_number(*run, number))
}
