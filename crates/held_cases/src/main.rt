// Runs the held run on graphs of 1, 4,096, 4,097 and 9,000 rows, each in four orders of its calls, with calls among them that must be
// refused, and with a stop in the middle from which the run goes on with stored lists. Each run is compared with the oracle's answers
// and with the run in the first order: the state and all eleven lists, number by number, by a digest. After the opening and each accepted
// call the Ritz record is looked at: the numbers of finished rounds have been written and stay, and all behind them are as they were lent.
#![tactic(auto)]

mod calls; // calls.rt: the held run's calls
mod cases; // cases.rt: graphs, and the oracle's answers
mod damage; // damage.rt: states that must be refused
mod digest; // digest.rt: what runs are compared by
mod graph; // graph.rt: the graphs of the oracle's rule
mod lists; // lists.rt: the lent lists, and what is done to them
mod plan; // plan.rt: which call comes next, and what it must answer
mod record; // record.rt: how far the Ritz record must be written
mod report; // report.rt: what is counted and printed
mod whole; // whole.rt: a run from its graph to its end

use graph::Graph;
use lists::Lists;
use plan::Order;
use report::{Line, Tally};
use std::io;

fn main(rt: HostRuntime) -> io::Result<()> {
    // No `new` of each: a function that gave the lists to its caller would have them on the stack twice, which has no room for that.
    let mut graph = Graph {
        number: 0,
        rows: 0,
        entries: 0,
        starts: [0; graph::STARTS_MOST],
        columns: [0; graph::ENTRIES_MOST],
        values: [0.0; graph::ENTRIES_MOST],
    };
    let mut lists = Lists {
        inverse: [0.0; lists::ROWS],
        v0: [0.0; lists::ROWS],
        edge_columns: [0; lists::ENTRIES],
        edge_weights: [0.0; lists::ENTRIES],
        block0: [0.0; lists::BLOCK],
        block1: [0.0; lists::BLOCK],
        block2: [0.0; lists::BLOCK],
        partials: [0.0; lists::PARTIALS],
        marks: [0; lists::MARKS],
        output: [0.0; lists::OUTPUT],
        ritz_record: [0.0; lists::RECORD],
    };
    let mut tally = Tally::default();
    for case in cases::CASES {
        let upward = whole::ran(case, Order::Upward, &mut graph, &mut lists);
        let mut line = Line::new(case, upward);
        line.count(upward);
        for order in Order::LATER {
            line.count(whole::ran(case, order, &mut graph, &mut lists));
        }
        println!(rt; "{line}")?;
        tally += line.tally;
    }
    println!(rt; "{tally}")
}
