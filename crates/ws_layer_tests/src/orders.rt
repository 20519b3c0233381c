//! Runs with workers whose nodes have their turns in the order of a list.
ghost use Rattle.std.specs.Prelude.{IfOk, Some};
ghost use Rattle.ws_node.specs.Opening.{IsAccepted};
ghost use Rattle.ws_node.specs.Past.{IsUnused};

use std::alloc::Global;
use std::test::Fail;
use ws_edge::End;
use ws_io::{MemSink, MemSource, Status};
use ws_node::{Head, Middle, Tail, Turn};
use ws_plan::read_plan;
use ws_port::pair;
use ws_stages::{Plan, check};
use ws_value::NoMemory;

/// The nodes of a run.
#[derive(Drop)]
struct Nodes {
    head: Head,
    middles: Vec<Middle>,
    tail: Tail,
}

/// The upper end of a new edge, and the lower one.
fn edge(alloc: Global) -> Result<(End, End), NoMemory>
    ensures { IfOk result (λ ends. IsUnused (Some ends.0) × IsUnused (Some ends.1)) }
{
    let (down, below) = pair(alloc)?;
    let (up, above) = pair(alloc)?;
    let upper = End::make(alloc, above, down, false)?;
    let lower = End::make(alloc, below, up, false)?;
    Ok((upper, lower))
}

/// A worker's node below this end, and the lower end of the edge below it.
fn middle(alloc: Global, plan: &Plan, worker: i64, above: End) -> Result<(Middle, End), NoMemory>
    requires accepted { IsAccepted plan.now }
    requires unused { IsUnused (Some above) }
    ensures { IfOk result (λ made. IsUnused (Some made.1)) }
{
    let (upper, lower) = edge(alloc)?;
    let middle = Middle::make(alloc, plan, worker, above, upper)?;
    Ok((middle, lower))
}

/// The nodes of the workers, and the lower end of the edge below the last of them.
fn middles(alloc: Global, plan: &Plan, first: End) -> Result<(Vec<Middle>, End), NoMemory>
    requires accepted { IsAccepted plan.now }
    requires unused { IsUnused (Some first) }
    ensures { IfOk result (λ made. IsUnused (Some made.1)) }
{
    let mut nodes = Vec::new(alloc);
    let mut last = first;
    for number in 0..plan.workers.unsigned_abs() {
        let (node, lower) = middle(alloc, plan, (number + 1) as i64, last)?;
        nodes.push(node)?;
        last = lower;
    }
    Ok((nodes, last))
}

impl Nodes {
    fn make(alloc: Global, plan: &Plan) -> Result<Nodes, NoMemory>
        requires { IsAccepted plan.now }
    {
        let (upper, lower) = edge(alloc)?;
        let head = Head::make(alloc, plan, upper)?;
        let (middles, last) = middles(alloc, plan, lower)?;
        let tail = Tail::make(alloc, plan, last)?;
        Ok(Nodes {
            head,
            middles,
            tail,
        })
    }

    /// A turn of the node of this number: 0 is the head, the last one the tail, any further one too.
    fn turn(
        &mut self,
        alloc: Global,
        number: usize,
        input: &mut MemSource,
        output: &mut MemSink,
    ) -> Turn {
        if number == 0 {
            return self.head.turn(alloc, input);
        }
        match self.middles.get_mut(number - 1) {
            Some(middle) => middle.turn(alloc),
            None => self.tail.turn(alloc, output),
        }
    }

    /// Turns in the order of the list.
    fn turns(
        &mut self,
        alloc: Global,
        order: &[usize],
        input: &mut MemSource,
        output: &mut MemSink,
    ) {
        for number in order {
            let _ = self.turn(alloc, *number, input, output);
        }
    }

    /// A turn of each node, from the last to the first. True says that all have ended.
    fn round(&mut self, alloc: Global, input: &mut MemSource, output: &mut MemSink) -> bool {
        let mut all = true;
        for number in 0..10 {
            if self.turn(alloc, 9 - number, input, output) != Turn::Ended {
                all = false;
            }
        }
        all
    }

    /// Turns in the order of the list, and then of each node, again and again, until all have ended: how the run ends.
    /// None says that it didn't.
    fn drive(
        &mut self,
        alloc: Global,
        order: &[usize],
        input: &mut MemSource,
        output: &mut MemSink,
    ) -> Option<Status> {
        for _ in 0..2000 {
            self.turns(alloc, order, input, output);
            if self.round(alloc, input, output) {
                return self.tail.status();
            }
        }
        None
    }
}

/// How a run ended, and what came out.
#[derive(Drop)]
struct Ran {
    status: Option<Status>,
    output: MemSink,
}

/// What is read.
const TEXT: &'static [u8] = b"GET /a 200\n\nGET /b 404\nno end";

/// A run whose nodes have their turns in this order, and whose reads, writes and finishes of these numbers fail.
fn run_in_order(
    alloc: Global,
    plan: &Plan,
    order: &[usize],
    failed_reads: &[u64],
    failed_writes: &[u64],
    failed_finishes: &[u64],
) -> Result<Ran, NoMemory>
    requires { IsAccepted plan.now }
{
    let mut input = MemSource::make(alloc, TEXT, &[3, 1, 7], failed_reads)?;
    let mut output = MemSink::make(alloc, 4096, &[5, 1], failed_writes, failed_finishes)?;
    let mut nodes = Nodes::make(alloc, plan)?;
    let status = nodes.drive(alloc, order, &mut input, &mut output);
    Ok(Ran { status, output })
}

/// The text of a plan whose first worker cuts lines, and each further one turns the last bit of each byte.
fn text_of(alloc: Global, workers: u32) -> Result<String, NoMemory> {
    let mut text = format!(in alloc;
        "version = 1\nworkers = {workers}\n[[stage]]\nkind = \"lines\"\n"
    )?;
    for worker in 2..workers.saturating_add(1) {
        write!(
            text,
            "[[stage]]\nkind = \"mask\"\nkey = \"01\"\nworker = {worker}\n"
        )?;
    }
    Ok(text)
}

/// Whether these are the first bytes of the output of the plan with so many workers.
fn are_first(got: &[u8], workers: u32) -> bool {
    let turned = if workers % 2 == 0 { 1 } else { 0 };
    for (byte, wanted) in got.iter().zip(TEXT) {
        if *byte != *wanted ^ turned {
            return false;
        }
    }
    got.len() <= TEXT.len()
}

impl Ran {
    /// Whether the run ended so, and what came out is all for a status of 0, and else a first part.
    fn is_right(&self, status: Status, workers: u32) -> bool {
        let done = status == Status::Done;
        self.status == Some(status)
            && self.output.finished() == done
            && (!done || self.output.got().len() == TEXT.len())
            && are_first(self.output.got(), workers)
    }
}

/// Six turns of this node alone, or of all nodes but this one.
fn order_of(alloc: Global, node: usize, is_starved: bool) -> Result<Vec<usize>, NoMemory> {
    let mut order = Vec::new(alloc);
    for turn in 0..60 {
        if (turn % 10 == node) != is_starved {
            order.push(turn % 10)?;
        }
    }
    Ok(order)
}

/// Whether the runs of that plan in this order end as they should: well, and with a read, a write or the finish that
/// fails.
fn end_well(alloc: Global, plan: &Plan, workers: u32, order: &[usize]) -> Result<bool, NoMemory>
    requires { IsAccepted plan.now }
{
    let well = run_in_order(alloc, plan, order, &[], &[], &[])?;
    let unread = run_in_order(alloc, plan, order, &[4], &[], &[])?;
    let unwritten = run_in_order(alloc, plan, order, &[], &[3], &[])?;
    let unfinished = run_in_order(alloc, plan, order, &[], &[], &[1])?;
    Ok(
        well.is_right(Status::Done, workers)
            && unread.is_right(Status::ReadFault, workers)
            && unwritten.is_right(Status::WriteFault, workers)
            && unfinished.is_right(Status::WriteFault, workers),
    )
}

/// The same of an accepted plan, whichever node comes first, and whichever has no turn for a while.
fn all_end_well(alloc: Global, workers: u32) -> Result<bool, NoMemory> {
    let text = text_of(alloc, workers)?;
    let Ok(plan) = read_plan(alloc, text.as_bytes()) else {
        return Ok(false);
    };
    if check(&plan).is_err() {
        return Ok(false);
    }
    let mut all = true;
    for number in 0..20 {
        let order = order_of(alloc, number / 2, number % 2 == 1)?;
        if !end_well(alloc, &plan, workers, &order)? {
            all = false;
        }
    }
    Ok(all)
}

/// That one to eight workers give the same bytes and statuses in whatever order their nodes have their turns: each one
/// first, and each one without a turn for a while.
#[test]
fn nodes_have_their_turns_in_any_order(rt: HostRuntime) -> Result<(), Fail> {
    let alloc = rt.alloc();
    for workers in 1..=8 {
        let holds = all_end_well(alloc, workers)?;
        assert!(rt; holds, "{workers} workers");
    }
    Ok(())
}
