// What waits for the variables of a theory. A list is looked at only where it was begun in the present round.
ghost use Rattle.std.specs.Prelude.{◌≡◌, ◌<◌, ℕ, [], length, IsTrue, OnOk};
ghost use Rattle.loop_nogoods.specs.Founding.{Appends, Takes, waits};
ghost use Rattle.loop_nogoods.specs.Marks.{marked};
ghost use Rattle.loop_nogoods.specs.Stamps.{lists_in};

use crate::stamps::Stamps;
use std::alloc::{AllocError, Global};
use std::marker::Model;
use theory_form::Var;

// A variable that waits for another to be founded. An atom is founded with it. A body is not looked through again before
// `place`.
#[derive(Clone, Copy, Debug, Drop)]
pub struct Wait {
    pub head: Var,
    pub place: usize,
}

#[derive(Drop)]
pub struct Waits {
    lists: Vec<Vec<Wait>>,
    begun: Stamps,
}

impl Model for Waits {
    ghost use Rattle.std.specs.Prelude.{List};
    ghost use Rattle.loop_nogoods.specs.declared.waits.Wait.{Wait};

    ghost Value = { List (List Wait) };

    ghost use Rattle.loop_nogoods.specs.Stamps.{lists_in};

    ghost view = { λ w. lists_in w.begun w.lists.items };
}

// Makes so many lists, of which none is begun yet.
fn make_lists(alloc: Global, lists: &mut Vec<Vec<Wait>>, places: usize) -> Result<(), AllocError>
    ensures { OnOk result (length lists.new.items ≡ places) }
{
    lists.truncate(places);
    for _ in lists.len()..places {
        lists.push(Vec::new(alloc))?;
    }
    Ok(())
}

// Begins the list of a variable, unless it is begun. It is empty then.
fn begin(lists: &mut Vec<Vec<Wait>>, begun: &mut Stamps, v: Var)
    requires list { v.0 < length lists.old.items }
    requires mark { v.0 < length begun.old }
    ensures size { length lists.new.items ≡ length lists.old.items }
    ensures begun { IsTrue (marked begun.new v.0) }
    ensures same { lists_in begun.new lists.new.items ≡ lists_in begun.old lists.old.items }
{
    if !begun.is_marked(v) {
        lists[v.0 as usize].clear();
        begun.set(v);
    }
}

impl Waits {
    // The table without lists.
    pub(crate) fn new(alloc: Global) -> Self {
        Waits {
            lists: Vec::new(alloc),
            begun: Stamps::new(alloc),
        }
    }

    // Empties the lists, and makes so many.
    pub(crate) fn restart(&mut self, alloc: Global, places: usize) -> Result<(), AllocError>
        ensures places { OnOk result (length self.new ≡ places) }
        ensures none { OnOk result ((v : ℕ) → waits self.new v ≡ []) }
    {
        make_lists(alloc, &mut self.lists, places)?;
        self.begun.restart(places)?;
        Ok(())
    }

    // Lets something wait for a variable.
    pub(crate) fn add(&mut self, v: Var, entry: Wait) -> Result<(), AllocError>
        requires { v.0 < length self.old }
        ensures { OnOk result (Appends self.old self.new v.0 entry) }
    {
        begin(&mut self.lists, &mut self.begun, v);
        self.lists[v.0 as usize].push(entry)?;
        Ok(())
    }

    // What waits for a variable, for which then nothing waits.
    pub(crate) fn take(&mut self, alloc: Global, v: Var) -> Vec<Wait>
        ensures { Takes self.old self.new v.0 result.items }
    {
        if self.begun.is_marked(v) && (v.0 as usize) < self.lists.len() {
            std::mem::replace(&mut self.lists[v.0 as usize], Vec::new(alloc))
        } else {
            Vec::new(alloc)
        }
    }

    // What waits for a variable.
    pub(crate) fn list(&self, v: Var) -> &[Wait]
        ensures { result.now ≡ waits self.now v.0 }
    {
        match self.lists.get(v.0 as usize) {
            Some(list) if self.begun.is_marked(v) => list.as_slice(),
            _ => &[],
        }
    }
}
