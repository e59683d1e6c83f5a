//! A table at the configuration of a script.

use control_line::line;
use member_group::Config;
use read_section::{Operator, Worker, open};
use std::alloc::Global;

// Gives each line that ends with an LF to the operator. Its replies are dropped.
fn give_lines(alloc: Global, script: &[u8], operator: &mut Operator) {
    let mut from = 0;
    for place in 0..script.len() {
        if script[place] == b'\n' {
            if from <= place {
                let _ = line(alloc, &script[from..place], operator);
            }
            from = place + 1;
        }
    }
}

/// Returns an operator at the script's configuration, and a worker of its table. `None` if memory was refused.
pub(crate) fn opened(alloc: Global, script: &[u8]) -> Option<(Operator, Worker)> {
    let Ok((mut operator, mut workers)) = open(Config::new(alloc)) else {
        return None;
    };
    give_lines(alloc, script, &mut operator);
    Some((operator, workers.pop()?))
}
