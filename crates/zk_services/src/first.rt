ghost use Rattle.std.specs.Prelude.{◌≡◌, ℕ, ◌+◌, true, [], length, map, option_map, IfOk};
ghost use Rattle.std.specs.List.{list_all};
ghost use Rattle.zk_line.specs.Fits.{decl_fits};
ghost use Rattle.zk_bus.specs.Seen.{chan_start, chan_history};
ghost use Rattle.zk_msgq.specs.Seen.{msgq_start, msgq_history};
ghost use Rattle.zk_poll.specs.Seen.{signal_start, signal_history};
ghost use Rattle.zk_sem.specs.Seen.{sem_start, sem_history};
ghost use Rattle.zk_subq.specs.Seen.{obs_start, obs_history};
ghost use Rattle.zk_worker.specs.Families.{no_entries};
ghost use Rattle.zk_worker.specs.Machines as machines;
ghost use Rattle.zk_services.specs.Objects.{starts_of, history_of, histories_of};
ghost use Rattle.zk_line.specs.Objects.{places, is_queue};
ghost use Rattle.zk_scenario.specs.Players.{players};
ghost use Rattle.zk_scenario.specs.Valid.{IsValid};
ghost use Rattle.zk_work.specs.Seen.{work_start, work_history};
ghost use Rattle.zk_worker.specs.Machines.{workers, is_on, work_start_of, item_number, items_of, machines_of};
ghost use Rattle.zk_worker.specs.Shown.{nothing_shown};
ghost use Rattle.zk_services.specs.Alone.{plain_machines, plain_shown};
ghost use Rattle.zk_services.specs.Starts.{starts};

use crate::plain::Plain;
use crate::table::first_table;
use std::alloc::Global;
use zk_base::{NewRefused, NoMemory};
use zk_bus::Channel;
use zk_msgq::Msgq;
use zk_poll::Signal;
use zk_scenario::{Decl, Scenario};
use zk_sem::Sem;
use zk_subq::Observer;
use zk_time::Clock;
use zk_work::Work;
use zk_worker::Player;

/// The numbers of the workers as players.
fn worker_numbers(alloc: Global, scenario: &Scenario) -> Result<Vec<u32>, NoMemory>
    requires { IsValid scenario.now }
    ensures { IfOk result (λ numbers. numbers.items ≡ workers scenario.now.decls) }
{
    let threads = scenario.threads().len() as u32;
    let queues = scenario.queues().len() as u32;
    let mut numbers = Vec::new(alloc);
    for queue in 0..queues {
        numbers.push(threads + queue)?;
    }
    Ok(numbers)
}

fn is_on(decls: &[Decl], object: u32) -> bool
    ensures { result ≡ is_on decls.now object }
{
    match decls.get(object as usize) {
        Some(Decl::Queue(_, _, on)) => *on,
        _ => false,
    }
}

/// Whether each queue is started at first.
fn started(alloc: Global, decls: &[Decl], queues: &[u32]) -> Result<Vec<bool>, NoMemory>
    ensures { IfOk result (λ started. started.items ≡ map (is_on decls.now) queues.now) }
{
    let started = queues
        .iter()
        .map(|queue| is_on(decls, *queue))
        .collect(alloc)?;
    Ok(started)
}

/// The work service of a scenario.
fn first_work(alloc: Global, scenario: &Scenario) -> Result<Work, NoMemory>
    ensures start { IfOk result (λ work. work_start work ≡ work_start_of scenario.now) }
    ensures none { IfOk result (λ work. work_history work ≡ []) }
    ensures valid { IsValid scenario.now }
{
    let started = started(alloc, scenario.decls(), scenario.queues())?;
    let workers = worker_numbers(alloc, scenario)?;
    let items = scenario.items().len() as u32;
    Work::new(alloc, items, &workers, &started)
}

/// The number of an item at the work service, by its object number.
fn item_number(scenario: &Scenario, object: u32) -> Option<u32>
    ensures { result ≡ item_number scenario.now.decls object }
{
    match scenario.decls().get(object as usize) {
        Some(Decl::Item(_)) => Some(scenario.number(object)),
        _ => None,
    }
}

fn item_numbers(alloc: Global, scenario: &Scenario) -> Result<Vec<Option<u32>>, NoMemory>
    requires { IsValid scenario.now }
    ensures { IfOk result (λ numbers. numbers.items ≡ items_of scenario.now.decls) }
{
    let objects = scenario.decls().len() as u32;
    let mut numbers = Vec::new(alloc);
    for object in 0..objects {
        numbers.push(item_number(scenario, object))?;
    }
    Ok(numbers)
}

/// The semaphore that a declaration is of, if it is of one, at which nothing was done.
fn first_sem(alloc: Global, decl: &Decl) -> Option<Sem>
    requires { decl_fits decl.now ≡ true }
    ensures start { option_map sem_start result ≡ machines.sem_start decl.now }
    ensures none { history_of sem_history result ≡ [] }
{
    match decl {
        Decl::Sem(_, initial, limit, _) => match Sem::new(alloc, *initial, *limit) {
            Ok(sem) => Some(sem),
            Err(_) => unreachable!(),
        },
        _ => None,
    }
}

/// The semaphores of a scenario, by object number.
fn first_sems(alloc: Global, decls: &[Decl]) -> Result<Vec<Option<Sem>>, NoMemory>
    requires { list_all decl_fits decls.now ≡ true }
    ensures starts { IfOk result (λ sems. starts_of sem_start sems.items ≡ map machines.sem_start decls.now) }
    ensures none { IfOk result (λ sems. histories_of sem_history sems.items ≡ no_entries decls.now) }
{
    let mut sems = Vec::with_capacity(alloc, decls.len())?;
    let mut decls = decls;
    while let [decl, rest @ ..] = decls {
        sems.push(first_sem(alloc, decl))?;
        decls = rest;
    }
    Ok(sems)
}

/// The message queue that a declaration is of, if it is of one, at which nothing was done.
fn first_msgq(alloc: Global, decl: &Decl) -> Result<Option<Msgq>, NoMemory>
    requires { decl_fits decl.now ≡ true }
    ensures start { IfOk result (λ msgq. option_map msgq_start msgq ≡ machines.msgq_start decl.now) }
    ensures none { IfOk result (λ msgq. history_of msgq_history msgq ≡ []) }
{
    match decl {
        Decl::Msgq(_, size, most, _) => match Msgq::new(alloc, *size, *most) {
            Ok(msgq) => Ok(Some(msgq)),
            Err(NewRefused::NoMemory) => Err(NoMemory),
            Err(NewRefused::Inval) => unreachable!(),
        },
        _ => Ok(None),
    }
}

/// The message queues of a scenario, by object number.
fn first_msgqs(alloc: Global, decls: &[Decl]) -> Result<Vec<Option<Msgq>>, NoMemory>
    requires { list_all decl_fits decls.now ≡ true }
    ensures starts { IfOk result (λ msgqs. starts_of msgq_start msgqs.items ≡ map machines.msgq_start decls.now) }
    ensures none { IfOk result (λ msgqs. histories_of msgq_history msgqs.items ≡ no_entries decls.now) }
{
    let mut msgqs = Vec::with_capacity(alloc, decls.len())?;
    let mut decls = decls;
    while let [decl, rest @ ..] = decls {
        msgqs.push(first_msgq(alloc, decl)?)?;
        decls = rest;
    }
    Ok(msgqs)
}

/// The signal that a declaration is of, if it is of one, to which nothing was written.
fn first_signal(alloc: Global, decl: &Decl) -> Option<Signal>
    ensures start { option_map signal_start result ≡ machines.signal_start decl.now }
    ensures none { history_of signal_history result ≡ [] }
{
    match decl {
        Decl::Signal(..) => Some(Signal::new(alloc)),
        _ => None,
    }
}

/// The signals of a scenario, by object number.
fn first_signals(alloc: Global, decls: &[Decl]) -> Result<Vec<Option<Signal>>, NoMemory>
    ensures starts { IfOk result (λ signals. starts_of signal_start signals.items ≡ map machines.signal_start decls.now) }
    ensures none { IfOk result (λ signals. histories_of signal_history signals.items ≡ no_entries decls.now) }
{
    let mut signals = Vec::with_capacity(alloc, decls.len())?;
    let mut decls = decls;
    while let [decl, rest @ ..] = decls {
        signals.push(first_signal(alloc, decl))?;
        decls = rest;
    }
    Ok(signals)
}

/// The channel that a declaration is of, if it is of one, at which nothing was done.
fn first_chan(alloc: Global, decl: &Decl) -> Result<Option<Channel>, NoMemory>
    requires { decl_fits decl.now ≡ true }
    ensures start { IfOk result (λ chan. option_map chan_start chan ≡ machines.chan_start decl.now) }
    ensures none { IfOk result (λ chan. history_of chan_history chan ≡ []) }
{
    match decl {
        Decl::Chan(_, initial, valid, observers) => {
            let chan = Channel::new(alloc, *initial, *valid, observers.numbers())?;
            Ok(Some(chan))
        }
        _ => Ok(None),
    }
}

/// The channels of a scenario, by object number.
fn first_chans(alloc: Global, decls: &[Decl]) -> Result<Vec<Option<Channel>>, NoMemory>
    requires { list_all decl_fits decls.now ≡ true }
    ensures starts { IfOk result (λ chans. starts_of chan_start chans.items ≡ map machines.chan_start decls.now) }
    ensures none { IfOk result (λ chans. histories_of chan_history chans.items ≡ no_entries decls.now) }
{
    let mut chans = Vec::with_capacity(alloc, decls.len())?;
    let mut decls = decls;
    while let [decl, rest @ ..] = decls {
        chans.push(first_chan(alloc, decl)?)?;
        decls = rest;
    }
    Ok(chans)
}

/// The listener or subscriber that a declaration is of, if it is of one, at which nothing was done.
fn first_observer(alloc: Global, decl: &Decl) -> Result<Option<Observer>, NoMemory>
    requires { decl_fits decl.now ≡ true }
    ensures start { IfOk result (λ observer. option_map obs_start observer ≡ machines.observer_start decl.now) }
    ensures none { IfOk result (λ observer. history_of obs_history observer ≡ []) }
{
    match decl {
        Decl::Listener(_) => Ok(Some(Observer::listener(alloc))),
        Decl::Sub(_, capacity) => Ok(Some(Observer::subscriber(alloc, *capacity)?)),
        _ => Ok(None),
    }
}

/// The listeners and subscribers of a scenario, by object number.
fn first_observers(alloc: Global, decls: &[Decl]) -> Result<Vec<Option<Observer>>, NoMemory>
    requires { list_all decl_fits decls.now ≡ true }
    ensures starts { IfOk result (λ observers. starts_of obs_start observers.items ≡ map machines.observer_start decls.now) }
    ensures none { IfOk result (λ observers. histories_of obs_history observers.items ≡ no_entries decls.now) }
{
    let mut observers = Vec::with_capacity(alloc, decls.len())?;
    let mut decls = decls;
    while let [decl, rest @ ..] = decls {
        observers.push(first_observer(alloc, decl)?)?;
        decls = rest;
    }
    Ok(observers)
}

/// The services of a scenario, at which nothing was done.
pub fn first_services(alloc: Global, scenario: &Scenario) -> Result<Plain, NoMemory>
    ensures machines { IfOk result (λ services. plain_machines services ≡ machines_of scenario.now) }
    ensures shown { IfOk result (λ services. plain_shown services ≡ nothing_shown scenario.now.decls) }
    ensures valid { IsValid scenario.now }
{
    Ok(Plain {
        work: first_work(alloc, scenario)?,
        items: item_numbers(alloc, scenario)?,
        most: scenario.steps(),
        clock: Clock::new(alloc),
        table: first_table(alloc, scenario)?,
        sems: first_sems(alloc, scenario.decls())?,
        msgqs: first_msgqs(alloc, scenario.decls())?,
        signals: first_signals(alloc, scenario.decls())?,
        chans: first_chans(alloc, scenario.decls())?,
        observers: first_observers(alloc, scenario.decls())?,
    })
}

/// The players of a scenario, none of which has made a step.
pub fn first_players(alloc: Global, scenario: &Scenario) -> Result<Vec<Player>, NoMemory>
    ensures { IfOk result (λ made. made.items ≡ starts scenario.now (length (players scenario.now.decls))) }
{
    let mut made = Vec::new(alloc);
    for number in 0..scenario.players() {
        made.push(Player::new(alloc, scenario, number)?)?;
    }
    Ok(made)
}
