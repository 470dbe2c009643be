ghost use Rattle.std.specs.Prelude.{◌≡◌, ◌<◌, ◌++◌, IfOk, OnOk, Ok, map};
ghost use Rattle.std.specs.Result.{IsOk};
ghost use Rattle.std.specs.List.{flat_map, range_with_len};
ghost use Rattle.zk_line.specs.Text.{call_line};
ghost use Rattle.zk_scenario.specs.Grammar.{scenario_of};
ghost use Rattle.zk_scenario.specs.Spelling.{script_line, end_line, script_lines, fed, lines_text, text_of};
ghost use Rattle.zk_soak.specs.Drawn.{calls_drawn, x_behind};
ghost use Rattle.zk_soak.specs.Objects.{soak_decls};
ghost use Rattle.zk_soak.specs.Soak.{declared_text, thread_script, thread_scripts, item_script, soak_scenario};

use crate::draws::{Draws, FIRST_ITEM, FIRST_SEM};
use std::alloc::Global;
use zk_base::{NoMemory, put};
use zk_line::{Arg, Call, Decl, Ref, put_call, put_said};
use zk_scenario::{Scenario, ScenarioRefused, read_scenario};
use zk_words::Head;

/// How many threads there are.
const THREADS: u32 = 12;

/// How many calls each thread makes.
const CALLS: u32 = 300;

/// How many items there are. Each has a script of one call.
const ITEMS: u32 = 16;

/// The scenario that is played by `soak`, of this number.
pub fn generate(alloc: Global, number: u32) -> Result<Scenario, NoMemory>
    ensures { IfOk result (λ scenario. scenario ≡ soak_scenario number) }
{
    let declared = read(alloc, declarations())?;
    let text = soak_text(alloc, declared.decls(), number)?;
    read(alloc, &text)
}

/// The text of the scenario, over the declarations.
fn soak_text(alloc: Global, decls: &[Decl], number: u32) -> Result<Vec<u8>, NoMemory>
    requires { decls.now ≡ soak_decls }
    ensures { IfOk result (λ text. text.items ≡ text_of (soak_scenario number)) }
{
    let mut draws = Draws::from(number);
    let mut text = Vec::new(alloc);
    put(&mut text, declarations())?;
    put_threads(&mut text, decls, &mut draws, THREADS, CALLS)?;
    put_items(&mut text, decls)?;
    Ok(text)
}

/// The header and the declarations.
fn declarations() -> &'static [u8]
    ensures { result.now ≡ declared_text }
{
    b"zk 1\n\
    thread t0 0 super\n\
    thread t1 1 super\n\
    thread t2 2 super\n\
    thread t3 3 super\n\
    thread t4 0 super\n\
    thread t5 1 super\n\
    thread t6 2 super\n\
    thread t7 3 super\n\
    thread t8 0 super\n\
    thread t9 1 super\n\
    thread t10 2 super\n\
    thread t11 3 super\n\
    queue q0 0 on\n\
    queue q1 0 on\n\
    item w0\nitem w1\nitem w2\nitem w3\n\
    item w4\nitem w5\nitem w6\nitem w7\n\
    item w8\nitem w9\nitem w10\nitem w11\n\
    item w12\nitem w13\nitem w14\nitem w15\n\
    sem s0 1 4\nsem s1 1 4\nsem s2 1 4\nsem s3 1 4\n\
    msgq m0 2 4\nmsgq m1 2 4\n\
    signal g0\nsignal g1\n\
    sub b0 8\n\
    chan c0 1 00 any b0\n"
}

/// Reads a text that is known to be a scenario's.
fn read(alloc: Global, text: &[u8]) -> Result<Scenario, NoMemory>
    requires { IsOk (scenario_of text.now) }
    ensures { IfOk result (λ scenario. scenario_of text.now ≡ Ok scenario) }
{
    match read_scenario(alloc, text) {
        Ok(scenario) => Ok(scenario),
        Err(ScenarioRefused::NoMemory) => Err(NoMemory),
        Err(ScenarioRefused::At(..)) => unreachable!(),
    }
}

/// The scripts of the threads, each of so many calls.
fn put_threads(
    out: &mut Vec<u8>,
    decls: &[Decl],
    draws: &mut Draws,
    threads: u32,
    calls: u32,
) -> Result<(), NoMemory>
    ensures { OnOk result (out.new.items
        ≡ out.old.items ++ flat_map (λ script. lines_text (script_lines decls.now script)) (thread_scripts threads calls 0 draws.old)) }
{
    for thread in 0..threads {
        put_thread(out, decls, draws, thread, calls)?;
    }
    Ok(())
}

fn put_thread(
    out: &mut Vec<u8>,
    decls: &[Decl],
    draws: &mut Draws,
    thread: u32,
    calls: u32,
) -> Result<(), NoMemory>
    ensures text { OnOk result
        (out.new.items ≡ out.old.items ++ lines_text (script_lines decls.now (thread_script thread calls draws.old))) }
    ensures behind { OnOk result (draws.new ≡ x_behind calls draws.old) }
{
    put_head(out, decls, thread)?;
    put_calls(out, decls, draws, calls)?;
    put_end(out)
}

fn put_calls(
    out: &mut Vec<u8>,
    decls: &[Decl],
    draws: &mut Draws,
    calls: u32,
) -> Result<(), NoMemory>
    ensures text { OnOk result
        (out.new.items ≡ out.old.items ++ flat_map (λ call. fed (call_line decls.now call)) (calls_drawn calls draws.old)) }
    ensures behind { OnOk result (draws.new ≡ x_behind calls draws.old) }
{
    for _made in 0..calls {
        let call = draws.call();
        put_fed_call(out, decls, &call)?;
    }
    Ok(())
}

/// The scripts of the items.
fn put_items(out: &mut Vec<u8>, decls: &[Decl]) -> Result<(), NoMemory>
    ensures { OnOk result (out.new.items
        ≡ out.old.items ++ flat_map (λ script. lines_text (script_lines decls.now script)) (map item_script (range_with_len 0 16))) }
{
    for item in 0..ITEMS {
        put_item(out, decls, item)?;
    }
    Ok(())
}

fn put_item(out: &mut Vec<u8>, decls: &[Decl], item: u32) -> Result<(), NoMemory>
    requires { item < 16 }
    ensures { OnOk result
        (out.new.items ≡ out.old.items ++ lines_text (script_lines decls.now (item_script item))) }
{
    let sem = Ref::Known(FIRST_SEM + item % 4);
    put_head(out, decls, FIRST_ITEM + item)?;
    put_fed_call(out, decls, &Call::Give(sem))?;
    put_end(out)
}

fn put_head(out: &mut Vec<u8>, decls: &[Decl], owner: u32) -> Result<(), NoMemory>
    ensures { OnOk result (out.new.items ≡ out.old.items ++ fed (script_line decls.now owner)) }
{
    let owner = Arg::Object(Ref::Known(owner));
    put_said(out, decls, Head::Script, &[Some(owner)])?;
    put(out, b"\n")
}

fn put_fed_call(out: &mut Vec<u8>, decls: &[Decl], call: &Call) -> Result<(), NoMemory>
    ensures { OnOk result (out.new.items ≡ out.old.items ++ fed (call_line decls.now call.now)) }
{
    put_call(out, decls, call)?;
    put(out, b"\n")
}

fn put_end(out: &mut Vec<u8>) -> Result<(), NoMemory>
    ensures { OnOk result (out.new.items ≡ out.old.items ++ fed end_line) }
{
    put(out, b"end\n")
}
