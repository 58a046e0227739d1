ghost use Rattle.std.specs.Prelude.{◌≡◌, IfOk, string_bytes, replicate};
ghost use Rattle.home.specs.Buffer.{overlay};
ghost use Rattle.home.specs.PairHome.{size_for, words_of};
ghost use Rattle.text.specs.Printing.{InRange, text_of};
ghost use Rattle.report.specs.Output.{answers_to, run_lines};

use crate::judged::first_wrong;
use crate::lines::run_text;
use home::holding_buffer::HoldingBuffer;
use home::pair_home::PairHome;
use model::answer::Answer;
use model::step::Step;
use path::first_come::FirstCome;
use rules::replay::replay;
use std::alloc::{AllocError, Global};
use text::header::Header;

// The steps of a run without a fault, and its header.
#[derive(Clone, Copy)]
pub(crate) struct BenchRun<'a> {
    pub(crate) header: Header,
    pub(crate) steps: &'a [Step],
    ghost in_range: { InRange header },
}

impl BenchRun<'_> {
    // A home in which each cell has its starting word.
    fn home(&self) -> PairHome
        ensures { words_of result ≡ replicate (size_for self.now.header.cells) self.now.header.start }
    {
        PairHome::new(self.header.cells, self.header.start)
    }

    // The memory of the bench: one buffer over its home.
    fn memory(&self) -> HoldingBuffer<PairHome>
        ensures { overlay (words_of result.below) result.places ≡ replicate (size_for self.now.header.cells) self.now.header.start }
    {
        HoldingBuffer::new(self.home())
    }

    // What the steps answer, on a bench of the header's size.
    fn answers(&self, heap: Global) -> Result<Vec<Answer>, AllocError>
        ensures { IfOk result (λ v. v.items ≡ answers_to self.now.header self.now.steps.now) }
    {
        let mut answers = vec![in heap; Answer::Done; self.steps.len()]?;
        let _ = replay(
            self.header.boards,
            self.header.entries,
            self.memory(),
            FirstCome::new(),
            self.steps,
            answers.as_mut_slice(),
        );
        Ok(answers)
    }

    // What is printed: the steps are run, and their reads are judged.
    pub(crate) fn text(&self, heap: Global) -> Result<String, AllocError>
        ensures { IfOk result (λ t. string_bytes t ≡ text_of (run_lines self.now.header self.now.steps.now)) }
    {
        let answers = self.answers(heap)?;
        let home = self.home();
        let wrong = first_wrong(self.header.boards, &home, self.steps, answers.as_slice());
        run_text(heap, answers.as_slice(), wrong)
    }
}
