// Runs the lane call on worked lists. Each line has the refusal's number (0 for none), its place, the count of lanes, and the
// first four lane answers, which hold 9 before the first call.
#![tactic(auto)]

use lanes::LaneReport;
use std::io;
use std::io::Print;

// The first four lane answers.
fn show_lanes<P: Print>(rt: &P, lanes: &[u32]) -> io::Result<()> {
    for lane in lanes.iter().take(4) {
        print!(rt; " {lane}")?;
    }
    Ok(())
}

// One call, with as much work space as 600 demands need.
fn run<P: Print>(rt: &P, demands: &[u32], lanes: &mut [u32]) -> io::Result<()> {
    let mut work = [[0u32; 8]; 600];
    let mut spare = [[0u32; 8]; 600];
    let r = LaneReport::from(lanes::allocate_lanes(demands, lanes, &mut work, &mut spare));
    print!(rt; "{} {} {}:", r.refusal, r.place, r.count)?;
    show_lanes(rt, lanes)?;
    println!(rt; "")
}

// The worked examples (b), (c) and (d), then a longer demand first, more consumers first, the lower order first, equals as
// listed, and a lane taken again.
fn run_worked<P: Print>(rt: &P, lanes: &mut [u32]) -> io::Result<()> {
    run(rt, &[], lanes)?;
    run(rt, &[0, 2, 1, 0, 2, 4, 1, 1], lanes)?;
    run(rt, &[0, 2, 1, 0, 3, 5, 1, 1], lanes)?;
    run(rt, &[0, 0, 1, 0, 0, 3, 1, 1, 4, 9, 1, 2], lanes)?;
    run(rt, &[1, 2, 1, 0, 1, 2, 2, 1], lanes)?;
    run(rt, &[1, 2, 1, 1, 1, 2, 1, 0], lanes)?;
    run(rt, &[1, 2, 1, 0, 1, 2, 1, 0], lanes)?;
    run(rt, &[4, 4, 1, 0, 0, 2, 1, 1, 3, 3, 1, 2, 3, 4, 1, 3], lanes)
}

// Refusals 1, 2, 3 and 7. The answers are left as they were.
fn run_refused<P: Print>(rt: &P, lanes: &mut [u32]) -> io::Result<()> {
    run(rt, &[0, 2, 1, 0, 2, 4, 1], lanes)?;
    let many = [0u32; 32772];
    run(rt, &many, lanes)?;
    run(rt, &[0, 2, 1, 0, 4095, 4096, 1, 1], lanes)?;
    run(rt, &[0, 2, 1, 0, 3, 2, 1, 1], lanes)?;
    let five = [0u32; 20];
    run(rt, &five, lanes)
}

// 512 demands of row 0 alone have a lane each, and the 513th would open one too many.
fn run_full<P: Print>(rt: &P) -> io::Result<()> {
    let mut lanes = [9u32; 513];
    let more = [0u32; 2052];
    run(rt, &more, &mut lanes)?;
    let most = [0u32; 2048];
    run(rt, &most, &mut lanes)
}

fn main(rt: HostRuntime) -> io::Result<()> {
    let mut lanes = [9u32; 4];
    run_worked(&rt, &mut lanes)?;
    run_refused(&rt, &mut lanes)?;
    run_full(&rt)
}
