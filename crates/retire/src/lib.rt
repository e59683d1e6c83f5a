//! Publishing and reclaiming: the work of an operator of the version table, in single steps (Desnoyers et al. 2012;
//! docs/TABLE.md, "Publishing", "When a version is free").
//!
//! `Retire::publish` never waits for a grace period, and `Retire::sweep` returns the versions whose grace period has
//! ended.
#![tactic(auto)]

ghost use Rattle.std.specs.Prelude.{◌≡◌, ◌+◌, ◌<◌, ◌≤◌, ◌↔◌, IfErr, IfOk, OnOk};
ghost use Rattle.member_group.specs.Charge.{charge_of};
ghost use Rattle.versions.specs.Free.{number_after};
ghost use Rattle.read_section.specs.Operator.{OperatorValue};
ghost use Rattle.retire.specs.Publish.{IsBusy, IsRefusedAs, Publishes, SharesEqualPrograms, StandsInRow};
ghost use Rattle.retire.specs.Sweep.{Sweeps};

mod allocation;
mod current_pages;
mod diff;
mod fault;
mod pages;
mod row;
mod row_reuse;
mod sink;
mod version;

pub use fault::PublishFault;
use member_group::Config;
use read_section::Operator;
pub use read_section::Reclaimed;
use versions::{CHARGE_LIMIT, LAST_NUMBER};

/// The operator's work on versions: it publishes them, and reports those that may be reused.
pub trait Retire {
    ghost operator: { Self → OperatorValue };

    /// Publishes a configuration as the next version, and returns its number, counted from 0.
    ///
    /// A program whose words equal those of a program of the current version takes its pages, and no fill is made for
    /// it. The other programs take the least free pages, one for each part, and fill them. In the least free row, only
    /// words that are not there already are filled. Then `current` is stored.
    ///
    /// If no row is free, it first scans each read word once. It returns `Busy` if that freed none: it never waits for
    /// a grace period. Takes no memory.
    fn publish(&mut self, config: Config) -> Result<u64, (PublishFault, Config)>
        ensures published_exactly { OnOk result (Publishes (operator self.old) (operator self.new) config) }
        ensures equal_programs_shared { OnOk result (SharesEqualPrograms (operator self.old) (operator self.new) config) }
        ensures filled_row { OnOk result (StandsInRow (operator self.old) (operator self.new) config) }
        ensures new_number { IfOk result (λ number. number ≡ number_after (operator self.old).view.log + 1) }

        // Tested in this order.
        ensures too_big { IsRefusedAs PublishFault.TooBig result ↔ (CHARGE_LIMIT < charge_of config) }
        ensures exhausted { IsRefusedAs PublishFault.Exhausted result
            ↔ ((charge_of config ≤ CHARGE_LIMIT) × (number_after (operator self.old).view.log ≡ LAST_NUMBER)) }
        ensures busy { IsRefusedAs PublishFault.Busy result → IsBusy (operator self.old) (operator self.new) }

        // A refusal hands the configuration back. Except for the scans of `Busy`, nothing was done.
        ensures handed_back { IfErr result (λ refusal. refusal.1 ≡ config) }
        ensures kept { IfErr result (λ refusal. (refusal.0 ≡ PublishFault.Busy → ⊥) → operator self.new ≡ operator self.old) };

    /// Scans each read word once, and returns the versions that are free and were not reported before: `count` of them,
    /// from `first` on. There may be none. Takes no memory and never waits.
    fn sweep(&mut self) -> Reclaimed
        ensures sweep_exact { Sweeps (operator self.old) (operator self.new) result.first result.count };
}

impl Retire for Operator {
    ghost operator = { λ operator. operator };

    fn publish(&mut self, config: Config) -> Result<u64, (PublishFault, Config)> {
        let charge = config.charge();
        if charge > CHARGE_LIMIT {
            return Err((PublishFault::TooBig, config));
        }
        if self.number() == LAST_NUMBER {
            return Err((PublishFault::Exhausted, config));
        }
        let Some(row) = row::look_for_row(self) else {
            return Err((PublishFault::Busy, config));
        };
        version::fill_version(self, row, &config, charge);
        self.put(row, config);
        Ok(self.number())
    }

    fn sweep(&mut self) -> Reclaimed {
        row::scan_each(self);
        self.report()
    }
}
