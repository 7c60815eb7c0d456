ghost use Rattle.std.specs.Prelude.{◌≡◌, OnOk, OnErr, IfOk, option_copied, length, [], refl};
ghost use Rattle.ids.specs.Naming.{name_of_grant, name_of_record};
ghost use Rattle.ids.specs.Ordered.{AreInOrder};
ghost use Rattle.victim_records.specs.Records.{record_in, put_record, without_record, renamed, with_holder, grants_of};

use ids::{GrantId, Incarnation, ItemChange, Listed, Record, SortedMap, Values};
use std::alloc::{AllocError, Global};
use std::marker::Model;

/// The open records of one subcomputation, each grant once. Contracts see the list of them, by
/// rising grant.
#[derive(Drop)]
pub struct Records {
    alloc: Global,
    records: SortedMap<Record>,
}

impl Model for Records {
    ghost use Rattle.std.specs.Prelude.{List};
    ghost use Rattle.ids.specs.declared.work.Record.{Record};

    ghost Value = { List Record };

    ghost view = { λ a. a.records };
}

impl Records {
    /// No records; takes no memory.
    pub fn new(alloc: Global) -> Records
        ensures { result ≡ [] }
    {
        Records {
            alloc,
            records: SortedMap::new(alloc),
        }
    }

    /// How many records there are.
    pub fn len(&self) -> usize
        ensures { result ≡ length self.now }
    {
        self.records.len()
    }

    /// The records, by rising grant.
    pub fn values(&self) -> Values<'_, Record>
        ensures { result ≡ self.now }
    {
        self.records.values()
    }

    /// The records stand by rising grant, each grant once. Does nothing.
    pub fn law_stand_in_order(&self)
        ensures { AreInOrder name_of_record self.now }
    {
        self.records.law_stand_in_order();
    }

    /// The record of a grant, if there is one.
    pub fn get(&self, grant: GrantId) -> Option<&Record>
        ensures { option_copied result ≡ record_in grant self.now }
    {
        self.records.get(name(grant))
    }

    /// Puts a record under its grant, in the place of one that is there; refused only when out of
    /// memory, which changes nothing.
    pub fn open(&mut self, opened: Record) -> Result<(), AllocError>
        ensures ok { OnOk result (self.new ≡ put_record opened self.old) }
        ensures err { OnErr result (self.new ≡ self.old) }
    {
        self.records.put(opened)
    }

    /// Takes the record of a grant away, if there is one. Takes no memory.
    pub fn close(&mut self, grant: GrantId) -> Option<Record>
        ensures same { result ≡ record_in grant self.old }
        ensures gone { self.new ≡ without_record grant self.old }
    {
        self.records.take(name(grant))
    }

    /// Gives the record of a grant, if there is one, another holder. Takes no memory.
    pub fn rename_holder(&mut self, grant: GrantId, holder: Incarnation)
        ensures { self.new ≡ renamed grant holder self.old }
    {
        if self.records.get(name(grant)).is_some() {
            self.records.change(name(grant), &Rename { holder });
        }
    }

    /// The grants that a worker holds, in their order.
    pub fn held_by(&self, holder: Incarnation) -> Result<Listed<GrantId>, AllocError>
        ensures { IfOk result (λ grants. grants ≡ grants_of holder self.now) }
    {
        let mut grants = Listed::new(self.alloc);
        for kept in self.records.values() {
            if kept.holder == holder {
                grants.push(kept.grant)?;
            }
        }
        Ok(grants)
    }
}

impl Clone for Records {
    ghost is_clone = { λ source copy. copy ≡ source };

    fn clone(&self) -> Result<Records, AllocError> {
        Ok(Records {
            alloc: self.alloc,
            records: self.records.clone()?,
        })
    }
}

/// Another holder for a record.
#[derive(Clone, Copy)]
struct Rename {
    holder: Incarnation,
}

impl ItemChange<Record> for Rename {
    ghost fits = { λ rename kept. Unit {0} };

    ghost changed = { λ rename kept. with_holder rename.holder kept };

    ghost keeps_name = { λ rename kept. refl };

    fn apply(&self, kept: &mut Record) {
        kept.holder = self.holder;
    }
}

/// The name of a grant's record.
fn name(grant: GrantId) -> (u64, u64)
    ensures { result ≡ name_of_grant grant }
{
    (grant.minter().word(), grant.number())
}
