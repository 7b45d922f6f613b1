//! The steps of the script.

ghost use Rattle.std.specs.Prelude.{◌≡◌, IfOk, map, List};
ghost use Rattle.toml.specs.View.{table_view};
ghost use Rattle.lab_tables.specs.Scripts.{peering_number as peering_number_lem, worded_step as worded_step_lem, step_of as step_of_lem};

use crate::input::{PeeringInput, Step};
use crate::name_index::NameIndex;
use crate::said::{said_attrs, said_prefixes};
use crate::words::word_at;
use bgp_types::{NoMemory, PeeringId, RouterId};
use lab_keys::{StepWord, TableReader, maybe_number, number_or, octets_at, text_at};
use std::alloc::Global;
use toml::Table;

/// Step reader, for these routers and peerings.
#[derive(Drop)]
pub(crate) struct StepReader<'p> {
    pub routers: &'p NameIndex,
    pub names: &'p NameIndex,
    pub peerings: &'p [PeeringInput],
    ghost same: { names.now ≡ map (λ p. p.name) peerings.now },
}

impl<'p> StepReader<'p> {
    /// Returns the index of the peering that a step names.
    fn peering(&self, table: &Table) -> u8
        ensures { result ≡ peering_number_lem self.now.peerings.now (table_view table.now) }
    {
        self.names.number_of(text_at("peering", table))
    }

    /// Returns the announce step that a table stands for.
    fn announce(&self, alloc: Global, table: &Table) -> Result<Step, NoMemory>
        ensures { IfOk result (λ step. step ≡ worded_step_lem words.Announces self.now.routers.now self.now.peerings.now (table_view table.now)) }
    {
        let peering = self.peering(table);
        let remote = self.peerings.get(usize::from(peering));
        Ok(Step::Announce {
            peering: PeeringId(peering),
            prefixes: said_prefixes(alloc, table)?,
            attrs: said_attrs(alloc, remote, table)?,
        })
    }

    /// Returns the step of this word that a table stands for.
    fn worded(&self, alloc: Global, word: StepWord, table: &Table) -> Result<Step, NoMemory>
        ensures { IfOk result (λ step. step ≡ worded_step_lem word self.now.routers.now self.now.peerings.now (table_view table.now)) }
    {
        match word {
            StepWord::Announces => self.announce(alloc, table),
            StepWord::Withdraws => Ok(Step::Withdraw {
                peering: PeeringId(self.peering(table)),
                prefixes: said_prefixes(alloc, table)?,
            }),
            StepWord::SaysRaw => Ok(Step::Raw {
                peering: PeeringId(self.peering(table)),
                bytes: octets_at(alloc, "hex", table)?,
            }),
            StepWord::Grafts => Ok(Step::Graft {
                peering: PeeringId(self.peering(table)),
                target: RouterId(self.routers.number_of(text_at("to", table))),
            }),
            StepWord::Settles => Ok(Step::Settle {
                rounds: maybe_number("rounds", table),
                least: number_or(0, "least", table),
            }),
            StepWord::Evacuates => Ok(Step::Evacuate {
                router: RouterId(self.routers.number_of(text_at("router", table))),
            }),
        }
    }
}

impl<'p> TableReader<Step> for StepReader<'p> {
    ghost value_of = { λ r. step_of_lem r.routers.now r.peerings.now };

    fn value(&self, alloc: Global, table: &Table) -> Result<Step, NoMemory> {
        self.worded(alloc, word_at(table), table)
    }
}

ghost use Rattle.lab_keys.specs.declared.words.StepWord.TheVariants as words;
