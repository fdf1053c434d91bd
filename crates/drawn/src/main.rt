// drawn: what the programs print for the networks of document 01, "Drawn networks", each behind a title line, with the greatest LEN of
// document 02, Change 4. Each part tells whether it is written whole; nothing is written behind one that is not.
#![tactic(auto)]

use program_io::line::Line;
use program_io::start::{Program, begin};
use program_io::status::Status;

const USAGE: &[u8] = b"usage: drawn\n\
    Prints what the programs print for the networks of document 01, each behind a title line.\n";

// Not merged into its callers, whose own buffers would then be cleared twice.
#[inline(never)]
fn put_title(to: Program<'_>, title: &str, program: &str) -> bool {
    let mut line = Line::new();
    line.add(title.as_bytes());
    line.add(program.as_bytes());
    to.put_part(line.ended())
}

fn read(to: Program<'_>, title: &str, network: &[u8]) -> bool {
    if !put_title(to, title, ": read") {
        return false;
    }
    let mut out = [0u8; read_answer::ROOM];
    let n = read_answer::print_reading(network, &mut out);
    to.put_part(&out[..n])
}

fn mark(to: Program<'_>, title: &str, network: &[u8], plan: &[u8]) -> bool {
    if !put_title(to, title, ": mark") {
        return false;
    }
    let mut out = [0u8; mark_answer::ROOM];
    let n = mark_answer::print_mark(network, plan, &mut out);
    to.put_part(&out[..n])
}

fn plan(to: Program<'_>, title: &str, network: &[u8]) -> bool {
    if !put_title(to, title, ": plan") {
        return false;
    }
    let mut out = [0u8; plan_answer::ROOM];
    let n = plan_answer::print_plan(network, &mut out);
    to.put_part(&out[..n])
}

fn clock(to: Program<'_>, title: &str, plan: &[u8]) -> bool {
    if !put_title(to, title, ": clock") {
        return false;
    }
    let mut out = [0u8; clock_answer::ROOM];
    let n = clock_answer::print_clocks(plan, &mut out);
    to.put_part(&out[..n])
}

// A network text that is refused, whatever the plan.
fn refuse(to: Program<'_>, title: &str, network: &[u8]) -> bool {
    read(to, title, network) && mark(to, title, network, b"")
}

fn network_a(to: Program<'_>) -> bool {
    let a = b"seg\t0\t4\ts\nmux\t3\t0\t0\t1\nseg\t2\t1\ts\nout\t3\nwrite\t1\t1010\n";
    let lines = b"csu\t1\ncsu\t00101\n";
    plan(to, "A", a)
        && mark(to, "A", a, lines)
        && clock(to, "A", lines)
        && mark(to, "A, second line csu 0010", a, b"csu\t1\ncsu\t0010\n")
}

fn changed_a(to: Program<'_>) -> bool {
    mark(
        to,
        "A with hold 1 1010, no plan lines",
        b"seg\t0\t4\ts\nmux\t3\t0\t0\t1\nseg\t2\t1\ts\nout\t3\nwrite\t1\t1010\nhold\t1\t1010\n",
        b"",
    ) && refuse(
        to,
        "A with hold 3 X",
        b"seg\t0\t4\ts\nmux\t3\t0\t0\t1\nseg\t2\t1\ts\nout\t3\nwrite\t1\t1010\nhold\t3\tX\n",
    ) && refuse(
        to,
        "A with write 3 1 instead",
        b"seg\t0\t4\ts\nmux\t3\t0\t0\t1\nseg\t2\t1\ts\nout\t3\nwrite\t3\t1\n",
    )
}

fn network_b(to: Program<'_>) -> bool {
    let b =
        b"seg\t0\t2\ts\nseg\t0\t2\ts\nmux\t4\t0\t1\t2\nseg\t3\t1\ts\nout\t4\nread\t1\nread\t2\n";
    plan(to, "B", b) && mark(to, "B", b, b"csu\t100\ncsu\t000\n")
}

fn network_c(to: Program<'_>) -> bool {
    let c = b"seg\t0\t1\ts\nseg\t1\t4\ts\nmux\t1\t0\t0\t2\nout\t3\nread\t2\n";
    plan(to, "C", c) && mark(to, "C, csu with no bits", c, b"csu\t\n")
}

fn network_d(to: Program<'_>) -> bool {
    let d = b"seg\t0\t2\ts\nmux\t1\t0\t1\t1\t1\nout\t2\n";
    mark(to, "D, csu 01", d, b"csu\t01\n") && mark(to, "D, csu 11", d, b"csu\t11\n")
}

fn edges(to: Program<'_>) -> bool {
    refuse(to, "empty text", b"")
        && plan(to, "out 0", b"out\t0\n")
        && mark(to, "out 0, the empty plan", b"out\t0\n", b"")
        && read(to, "LEN 32", b"seg\t0\t32\ts\nout\t1\n")
        && read(to, "LEN 64", b"seg\t0\t64\ts\nout\t1\n")
        && refuse(to, "LEN 65", b"seg\t0\t65\ts\nout\t1\n")
}

// Lines of no bits, each of five bytes.
fn plan_lines(to: Program<'_>) -> bool {
    let seventeen: &[u8] =
        b"csu\t\ncsu\t\ncsu\t\ncsu\t\ncsu\t\ncsu\t\ncsu\t\ncsu\t\ncsu\t\ncsu\t\ncsu\t\ncsu\t\ncsu\t\ncsu\t\ncsu\t\ncsu\t\ncsu\t\n";
    mark(
        to,
        "out 0, sixteen plan lines",
        b"out\t0\n",
        &seventeen[..80],
    ) && mark(to, "out 0, seventeen plan lines", b"out\t0\n", seventeen)
        && clock(to, "seventeen plan lines", seventeen)
}

fn put_all(to: Program<'_>) -> bool {
    network_a(to)
        && changed_a(to)
        && network_b(to)
        && network_c(to)
        && network_d(to)
        && edges(to)
        && plan_lines(to)
}

fn main(rt: HostRuntime) {
    let Some(call) = begin(&rt, b"drawn", USAGE, 0, 0) else {
        return;
    };
    if put_all(call.program) {
        call.finish(Status::Answered);
    } else {
        call.finish(Status::NoAnswer);
    }
}
