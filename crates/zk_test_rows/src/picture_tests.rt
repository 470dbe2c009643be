//! What a picture of a chart has in it.
use memchr::memmem;
use std::alloc::Global;
use std::test::Fail;
use zk_base::NoMemory;
use zk_scenario::read_scenario;
use zk_show_chart::{Arrow, ArrowKind, Bar, BarKind, Chart, Row, Tick};
use zk_show_svg::put_svg;
use zk_trace::Ending;

/// A run of two players: a give that serves a take, and a name that no trace has.
fn chart_of(alloc: Global) -> Result<Chart<'static>, NoMemory> {
    let mut rows = Vec::new(alloc);
    for (player, line, text) in [
        (0, 11, b"main.0 take wait = wait".as_slice()),
        (4, 12, b"isr.0 give = ok".as_slice()),
        (0, 13, b"main.1 takeend 0 = got".as_slice()),
        (0, 20, b"look main.2 busy <&\"> = - @0".as_slice()),
    ] {
        let service = b"s0";
        rows.push(Row {
            player,
            step: 0,
            line,
            service,
            text,
        })?;
    }
    let wait = Bar {
        player: 0,
        kind: BarKind::Wait,
        depth: 0,
        first: 0,
        last: Some(2),
    };
    let give = Arrow {
        kind: ArrowKind::Give,
        from: 1,
        to: 2,
    };
    let none = Arrow {
        kind: ArrowKind::Visit,
        from: 1,
        to: 4,
    };
    let tick = Tick { row: 2, time: 5 };
    Ok(Chart {
        ending: Ending::Ended,
        agrees: false,
        rows,
        bars: Vec::from_slice(alloc, &[wait])?,
        arrows: Vec::from_slice(alloc, &[give, none])?,
        ticks: Vec::from_slice(alloc, &[tick])?,
    })
}

/// What the picture of this chart has to have in it, and whether it has, for a scenario of two threads and one of five.
#[test]
fn draws_what_there_is(rt: HostRuntime) -> Result<(), Fail> {
    let chart = chart_of(rt.alloc())?;
    let few = b"zk 1\nthread main 0 super\nthread isr 0 super\n".as_slice();
    let many =
        b"zk 1\nthread main 0 super\nthread b 0 super\nthread c 0 super\nthread d 0 super\nqueue isr 0 on\n".as_slice();
    for (text, wanted) in [
        (
            few,
            b"<svg xmlns=\"http://www.w3.org/2000/svg\" role=\"img\"".as_slice(),
        ),
        (few, b"A run of zk, ended: 4 steps of 2 players</title>"),
        (few, b"they stand service by service."),
        (
            few,
            b">main</text><text class=\"m\" x=\"94\" y=\"207\">thread</text>",
        ),
        (
            few,
            b"<g class=\"r\"><title>line 13, s0: main.1 takeend 0 = got</title><rect class=\"b\" x=\"94\" y=\"264\"",
        ),
        (
            few,
            b"<tspan class=\"s\">s0</tspan> takeend 0 = got</text><text class=\"n\" x=\"60\" y=\"277\">13</text></g>",
        ),
        (
            few,
            b"<title>line 20, s0: look main.2 busy &lt;&amp;&quot;&gt; = - @0</title>",
        ),
        (few, b"</tspan> busy &lt;&amp;&quot;&gt; = - @0</text>"),
        (
            few,
            b"<rect class=\"wait\" x=\"98\" y=\"238\" width=\"12\" height=\"26\" rx=\"3\"/>",
        ),
        (
            few,
            b"<path class=\"t\" d=\"M16 283H798\"/><text class=\"n\" x=\"794\" y=\"279\">t=5</text>",
        ),
        (few, b">give: to the take it served</text>"),
        (few, b">because</text>\n</svg>\n"),
        (many, b"<path class=\"a a1\" d=\"M716 338H706V360H590\"/>"),
        (many, b"rotate(-90)\">isr</text>"),
        (
            many,
            b"<rect class=\"d\" x=\"572\" y=\"357\" width=\"18\" height=\"8\" rx=\"4\"/><text x=\"68\" y=\"365\">main.1</text>",
        ),
    ] {
        let scenario = read_scenario(rt.alloc(), text)?;
        let mut out = Vec::new(rt.alloc());
        put_svg(&mut out, &scenario, &chart, b"because\n")?;
        let at = memmem::find(&out, wanted);
        assert!(rt; at.is_some(), "{}", out.len());
    }
    Ok(())
}
