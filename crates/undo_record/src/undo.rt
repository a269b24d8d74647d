// The marks of a transaction.
ghost use Rattle.std.specs.Prelude.{◌≡◌, ◌↔◌, [], ◌∷◌, ◌++◌, OnOk, OnErr, IsNone, IfSome, IfNone};

use crate::mark::Mark;
use grid::Memory;
use std::alloc::Global;
use std::marker::Model;

/// A list of marks, in the order of the changes.
#[derive(Debug, Drop)]
pub struct Undo {
    marks: Vec<Mark>,
}

impl Model for Undo {
    ghost use Rattle.std.specs.Prelude.{List};
    ghost use Rattle.undo_record.specs.declared.mark.Mark.{Mark};

    ghost Value = { List Mark };

    ghost view = { λ u. u.marks.items };
}

impl Undo {
    /// No marks. Takes no memory.
    pub fn new(alloc: Global) -> Undo
        ensures { result ≡ [] }
    {
        Undo {
            marks: Vec::new(alloc),
        }
    }

    /// Appends a mark. A refused push changes nothing.
    pub fn push(&mut self, m: Mark) -> Result<(), Memory>
        ensures ok { OnOk result (self.new ≡ self.old ++ m ∷ []) }
        ensures err { OnErr result (self.new ≡ self.old) }
    {
        self.marks.push(m)?;
        Ok(())
    }

    /// Takes the last mark.
    pub fn pop(&mut self) -> Option<Mark>
        ensures none { IsNone result ↔ (self.old ≡ []) }
        ensures last { IfSome result (λ m. self.old ≡ self.new ++ m ∷ []) }
        ensures unchanged { IfNone result (self.new ≡ self.old) }
    {
        self.marks.pop()
    }

    /// Forgets all marks.
    pub fn clear(&mut self)
        ensures { self.new ≡ [] }
    {
        self.marks.clear();
    }
}

#[cfg(test)]
mod tests {
    use super::*;
    use std::test::Fail;

    #[test]
    fn pops_the_last_mark(rt: HostRuntime) -> Result<(), Fail> {
        let mut undo = Undo::new(rt.alloc());
        assert_eq!(rt; undo.pop(), None);
        undo.push(Mark::PointMade)?;
        undo.push(Mark::Killed(3))?;
        assert_eq!(rt; undo.pop(), Some(Mark::Killed(3)));
        assert_eq!(rt; undo.pop(), Some(Mark::PointMade));
        assert_eq!(rt; undo.pop(), None);
        Ok(())
    }

    #[test]
    fn forgets_all_marks(rt: HostRuntime) -> Result<(), Fail> {
        let mut undo = Undo::new(rt.alloc());
        undo.push(Mark::TetMade)?;
        undo.clear();
        assert_eq!(rt; undo.pop(), None);
        Ok(())
    }
}
