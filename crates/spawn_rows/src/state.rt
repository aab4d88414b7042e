//! The spawner and the spool that rows speak of.
ghost use Rattle.std.specs.Prelude.{◌≡◌, ◌<◌, true, None, length};
ghost use Rattle.mt_spawn.specs.Children.{lives};
ghost use Rattle.mt_spawn.specs.Memory.{children_of};

use crate::echo::Echo;
use crate::held::{self, Standing};
use crate::script::Plan;
use crate::{spools, starts};
use mt_edge::NeverFails;
use mt_rows::{Row, Rows, Stop};
use mt_spawn::{MemSpawner, MemSpool, NoSpawner, Spawner, Ticket};
use std::alloc::{AllocError, Global};
use std::mem;

/// How the spawner is called.
#[derive(Drop)]
enum Form {
    /// By its script.
    Scripted(MemSpawner<Echo>),
    /// As one that never fails.
    NeverFails(NeverFails<MemSpawner<Echo>>),
}

/// The script of the next spawner, a spawner, and a spool.
#[derive(Drop)]
pub struct Spawns {
    plan: Plan,
    form: Option<Form>,
    spool: Option<MemSpool>,
}

// What a row may ask of a spawner.
fn standing_of(spawner: &MemSpawner<Echo>, row: &Row) -> Standing
    ensures free { result.is_free ≡ true → spawner.now.running.held ≡ None }
    ensures some { result.is_some ≡ true → 0 < length spawner.now.running.children.items.items }
    ensures alive { result.is_alive ≡ true → lives result.ticket.number (children_of spawner.now.running.children.items.items) ≡ true }
{
    let ticket = Ticket {
        number: row.number(1).unwrap_or(0),
    };
    Standing {
        is_free: !spawner.is_holding(),
        is_some: spawner.live() > 0,
        ticket,
        is_alive: spawner.lives(ticket),
    }
}

fn put_counts(spawner: &MemSpawner<Echo>, out: &mut String) -> Result<(), AllocError> {
    write!(out, "live {}, starts {}", spawner.live(), spawner.starts())?;
    write!(out, ", failed {}", spawner.faults())?;
    write!(
        out,
        ", in vain {}, company {}",
        spawner.waits(),
        spawner.company()
    )
}

// A row of a spawner.
fn call<P: Spawner>(
    alloc: Global,
    spawner: &mut P,
    standing: Standing,
    row: &Row,
    out: &mut String,
) -> Result<(), Stop>
    requires free { standing.is_free ≡ true → P.held spawner.old ≡ None }
    requires some { standing.is_some ≡ true → 0 < length (P.seen spawner.old).live }
    requires alive { standing.is_alive ≡ true → lives standing.ticket.number (P.seen spawner.old).live ≡ true }
{
    match row.text(0)? {
        "start" | "start-cut" => starts::answer(alloc, spawner, standing.is_free, row, out),
        _ => held::answer(alloc, spawner, standing, row, out),
    }
}

impl Form {
    fn inner(&self) -> &MemSpawner<Echo> {
        match self {
            Form::Scripted(spawner) => spawner,
            Form::NeverFails(spawner) => &spawner.inner,
        }
    }

    fn answer(&mut self, alloc: Global, row: &Row, out: &mut String) -> Result<(), Stop> {
        match self {
            Form::Scripted(spawner) => {
                let standing = standing_of(spawner, row);
                call(alloc, spawner, standing, row, out)
            }
            Form::NeverFails(spawner) => {
                let standing = standing_of(&spawner.inner, row);
                call(alloc, spawner, standing, row, out)
            }
        }
    }
}

impl Spawns {
    /// Neither a spawner nor a spool yet.
    pub fn new(alloc: Global) -> Spawns {
        Spawns {
            plan: Plan::new(alloc),
            form: None,
            spool: None,
        }
    }

    // A spawner by the script so far.
    fn planned(&mut self, alloc: Global) -> MemSpawner<Echo> {
        mem::replace(&mut self.plan, Plan::new(alloc)).spawner(alloc)
    }

    // A row of what is there.
    fn call(&mut self, alloc: Global, row: &Row, out: &mut String) -> Result<(), Stop> {
        if let "create" | "append" | "files" = row.text(0)? {
            return match &mut self.spool {
                Some(spool) => spools::answer(spool, row, out),
                None => Err(Stop::NoSuchRow),
            };
        }
        match &mut self.form {
            Some(form) => form.answer(alloc, row, out),
            None => Err(Stop::NoSuchRow),
        }
    }

    fn put_counts(&self, out: &mut String) -> Result<(), Stop> {
        match &self.form {
            Some(form) => Ok(put_counts(form.inner(), out)?),
            None => Err(Stop::NoSuchRow),
        }
    }
}

impl Rows for Spawns {
    fn answer(
        &mut self,
        alloc: Global,
        _line: &str,
        row: &Row,
        out: &mut String,
    ) -> Result<(), Stop> {
        if self.plan.take(alloc, row)? {
            return Ok(());
        }
        match row.text(0)? {
            "spawner" => self.form = Some(Form::Scripted(self.planned(alloc))),
            "never-fails" => {
                let inner = self.planned(alloc);
                self.form = Some(Form::NeverFails(NeverFails { inner }));
            }
            "start-nothing" => starts::answer(alloc, &mut NoSpawner::new(), true, row, out)?,
            "spool" => self.spool = Some(spools::spool_of(alloc, row)?),
            "counts" => self.put_counts(out)?,
            _ => self.call(alloc, row, out)?,
        }
        Ok(())
    }
}
