// Tables of marks.
ghost use Rattle.std.specs.Prelude.{◌==◌};
ghost use Rattle.theory_build.specs.Marks.{Marks};

// Marks a number of a table of marks, one for each number from 1 on.
pub(crate) fn mark(marks: &mut [bool], number: u64)
    ensures { Marks marks.old marks.new (λ k. number == k) }
{
    if 0 < number && number <= marks.len() as u64 {
        marks[number as usize - 1] = true;
    }
}
