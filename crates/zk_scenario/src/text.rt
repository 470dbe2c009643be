ghost use Rattle.std.specs.Prelude.{◌≡◌, ◌++◌, IfOk, OnOk};
ghost use Rattle.std.specs.List.{flat_map};
ghost use Rattle.zk_line.specs.Text.{call_line};
ghost use Rattle.zk_scenario.specs.Grammar.{IsReadable};
ghost use Rattle.zk_scenario.specs.Spelling.{object_line, declared_line, script_line, end_line, script_lines, fed, lines_text, text_of};

use crate::{Scenario, Script};
use std::alloc::Global;
use zk_base::{NoMemory, put};
use zk_line::{Arg, Call, Decl, Declared, Ref, put_allow, put_call, put_decl, put_said};
use zk_words::Head;

/// The text of a scenario. What is read from it is the scenario again.
pub fn print_scenario(alloc: Global, scenario: &Scenario) -> Result<Vec<u8>, NoMemory>
    ensures spelled { IfOk result (λ text. text.items ≡ text_of scenario.now) }
    ensures readable { IsReadable scenario.now }
{
    let mut text = Vec::new(alloc);
    put_scenario(&mut text, scenario)?;
    Ok(text)
}

fn put_scenario(out: &mut Vec<u8>, scenario: &Scenario) -> Result<(), NoMemory>
    ensures text { OnOk result (out.new.items ≡ out.old.items ++ text_of scenario.now) }
    ensures readable { IsReadable scenario.now }
{
    let decls = scenario.decls();
    put(out, b"zk 1\n")?;
    put_declarations(out, decls, scenario.written())?;
    put_scripts(out, decls, scenario.scripts())
}

fn put_declarations(out: &mut Vec<u8>, decls: &[Decl], written: &[Declared]) -> Result<(), NoMemory>
    ensures { OnOk result (out.new.items
        ≡ out.old.items ++ flat_map (λ line. fed (declared_line decls.now line)) written.now) }
{
    for line in written {
        put_declared(out, decls, line)?;
    }
    Ok(())
}

fn put_declared(out: &mut Vec<u8>, decls: &[Decl], line: &Declared) -> Result<(), NoMemory>
    ensures { OnOk result (out.new.items ≡ out.old.items ++ fed (declared_line decls.now line.now)) }
{
    match line {
        Declared::Object(object) => put_object(out, decls, *object)?,
        Declared::Allow(thread, object) => put_allow(out, decls, *thread, *object)?,
    }
    put(out, b"\n")
}

fn put_object(out: &mut Vec<u8>, decls: &[Decl], object: u32) -> Result<(), NoMemory>
    ensures { OnOk result (out.new.items ≡ out.old.items ++ object_line decls.now object) }
{
    let object = object as usize;
    match decls.get(object) {
        Some(decl) => put_decl(out, &decls[..object], decl),
        None => Ok(()),
    }
}

fn put_scripts(out: &mut Vec<u8>, decls: &[Decl], scripts: &[Script]) -> Result<(), NoMemory>
    ensures { OnOk result (out.new.items
        ≡ out.old.items ++ flat_map (λ script. lines_text (script_lines decls.now script)) scripts.now) }
{
    for script in scripts {
        put_script_lines(out, decls, script)?;
    }
    Ok(())
}

fn put_script_lines(out: &mut Vec<u8>, decls: &[Decl], script: &Script) -> Result<(), NoMemory>
    ensures { OnOk result
        (out.new.items ≡ out.old.items ++ lines_text (script_lines decls.now script.now)) }
{
    put_head(out, decls, script.owner)?;
    put_calls(out, decls, script.calls.items())?;
    put_tail(out)
}

fn put_head(out: &mut Vec<u8>, decls: &[Decl], owner: u32) -> Result<(), NoMemory>
    ensures { OnOk result (out.new.items ≡ out.old.items ++ fed (script_line decls.now owner)) }
{
    put_said(
        out,
        decls,
        Head::Script,
        &[Some(Arg::Object(Ref::Known(owner)))],
    )?;
    put(out, b"\n")
}

fn put_tail(out: &mut Vec<u8>) -> Result<(), NoMemory>
    ensures { OnOk result (out.new.items ≡ out.old.items ++ fed end_line) }
{
    put_said(out, &[], Head::End, &[])?;
    put(out, b"\n")
}

fn put_calls(out: &mut Vec<u8>, decls: &[Decl], calls: &[Call]) -> Result<(), NoMemory>
    ensures { OnOk result
        (out.new.items ≡ out.old.items ++ flat_map (λ call. fed (call_line decls.now call)) calls.now) }
{
    for call in calls {
        put_fed_call(out, decls, call)?;
    }
    Ok(())
}

fn put_fed_call(out: &mut Vec<u8>, decls: &[Decl], call: &Call) -> Result<(), NoMemory>
    ensures { OnOk result (out.new.items ≡ out.old.items ++ fed (call_line decls.now call.now)) }
{
    put_call(out, decls, call)?;
    put(out, b"\n")
}
