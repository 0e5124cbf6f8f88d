//! The codes of chooses, which are found by all that tells one choose from another.
ghost use Rattle.std.specs.Prelude.{◌≡◌, ◌<◌, ◌≤◌, All, Contains, IfOk, map, length, take};
ghost use Rattle.std.specs.List.Sorted.{IsNonDecreasing};
ghost use Rattle.cf_tree.specs.ChooseTree.{ChooseTree};
ghost use Rattle.cf_tree.specs.ChooseView.{choose_tree};
ghost use Rattle.cf_tree.specs.CodeView.{code_tree};
ghost use Rattle.cf_build.specs.Chooses.{solve_of};
ghost use Rattle.cf_build.specs.Known.{kept, solve_code, IsChooseCode, IsKnown};
ghost use Rattle.cf_build.specs.Marks.{choose_marks};
ghost use Rattle.cf_build.specs.Solves.{IsSolved};

use crate::same::{Mark, marks_of, same_marks};
use crate::solves::SolvedChoose;
use cf_tree::{Choose, Code, NoMemory, without};
use std::alloc::Global;

// The `solve` of a choose, its number, and its marks.
#[derive(Drop)]
pub(crate) struct ChooseCode {
    pub(crate) number: u32,
    pub(crate) marks: Vec<Mark>,
    pub(crate) code: Code,
}

// The codes of chooses, whose numbers do not fall.
#[derive(Drop)]
pub(crate) struct ChooseCodes {
    pub(crate) codes: Vec<ChooseCode>,
    ghost rising: { IsNonDecreasing (map (λ c. c.number) codes.items) },
}

// The codes of solved chooses. What else is kept of them is given up.
pub(crate) fn choose_codes(
    alloc: Global,
    solves: Vec<SolvedChoose<'_>>,
) -> Result<ChooseCodes, NoMemory>
    requires solved { All (λ s. IsSolved (choose_tree s.choose) s) solves.items }
    requires rising { IsNonDecreasing (map (λ s. s.choose.number) solves.items) }
    ensures solved { IfOk result (λ c. All IsChooseCode c.codes.items) }
    ensures marks { IfOk result (λ c. map (λ k. k.marks.items) c.codes.items ≡ map (λ s. choose_marks (choose_tree s.choose)) solves.entry.items) }
{
    let mut codes = Vec::new(alloc);
    for solve in solves {
        codes.push(choose_code(alloc, solve)?)?;
    }
    Ok(ChooseCodes { codes })
}

// The code of a solved choose.
fn choose_code(alloc: Global, solve: SolvedChoose<'_>) -> Result<ChooseCode, NoMemory>
    ensures { IfOk result (λ c. kept c ≡ solve_code solve.entry) }
{
    let number = solve.choose.number;
    let Ok(marks) = marks_of(alloc, &solve.choose) else {
        return Err(without(solve, NoMemory));
    };
    let code = solve.solved.into_code(number);
    Ok(ChooseCode {
        number,
        marks,
        code,
    })
}

impl ChooseCodes {
    // The code of a choose whose solve is kept.
    pub(crate) fn find(&self, alloc: Global, choose: &Choose<'_>) -> Result<&Code, NoMemory>
        requires { IsKnown self.now.codes.items (choose_tree choose.now) }
        ensures { IfOk result (λ c. code_tree c.now ≡ solve_of (choose_tree choose.now)) }
    {
        let marks = marks_of(alloc, choose)?;
        let from = self.place(choose.number);
        Ok(with_marks(&self.codes[from..], &marks))
    }

    // The place of the first choose whose number is not smaller.
    fn place(&self, number: u32) -> usize
        ensures bound { result ≤ length self.now.codes.items }
        ensures smaller { All (λ c. c.number < number) (take result self.now.codes.items) }
    {
        self.codes.partition_point(|code| code.number < number)
    }
}

// The code with these marks.
fn with_marks<'c>(codes: &'c [ChooseCode], marks: &[Mark]) -> &'c Code
    requires kept { All IsChooseCode codes.now }
    requires here { Contains (map (λ c. c.marks.items) codes.now) marks.now }
    ensures { (q : ChooseTree) → choose_marks q ≡ marks.now → code_tree result.now ≡ solve_of q }
{
    let mut rest = codes;
    while let Some((code, more)) = rest.split_first() {
        if same_marks(&code.marks, marks) {
            return &code.code;
        }
        rest = more;
    }
    unreachable!()
}
