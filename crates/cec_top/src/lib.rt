//! Everything that the program does, over a desk that stands for files and streams.
//!
//! `run` reads two circuits, checks them, writes the CNF of their miter beside a proof and says the verdict,
//! and goes on so as an edit script asks for it: each line edits the circuits or has them checked again. Or
//! it makes two circuits itself and checks those; or it checks such a proof. Or it reduces a circuit, and
//! writes what is left of it with a proof that both compute the same.
//!
//! What a verdict means of the words `check A B` is on one page, `specs/Plain.antt`, by the law
//! `laws::plain_verdicts`: begin there. What each verdict promises whatever the options is
//! `specs/Headline.antt`, and `laws::verdicts` shows it from the contract of `run`, which
//! says what each status means: `specs/Answers.antt`. That of a reduced circuit is `specs/Reduced.antt`, by
//! `laws::reductions`. What is warned of a file or a script's line that is
//! refused, and what stands then, is in `specs/Refused.antt`, by the law `laws::verdicts`. When a run has to come
//! to a verdict is in `specs/Complete.antt`, and `laws::completeness` shows it.
//!
//! Definitions on which the answers stand: `specs/Script.antt` (what an edit script asks for),
//! `specs/Check.antt` (one check, from what it found to its files and its verdict, and checks one after
//! another), `specs/Stats.antt` and `specs/Progress.antt` (what is
//! warned of it on request, and `specs/Warned.antt` of several), `specs/SelfCheck.antt` (that of two circuits that the program makes), `specs/Fraig.antt` (a
//! circuit that is reduced), `specs/Inputs.antt` (the files that are read), `specs/Texts.antt` (what is said), `specs/Lines.antt` (what is warned of circuits, their files and lines of a script);
//! `specs/Steps.antt` and `specs/FraigSteps.antt` are for the crate's own functions. Begin to read at `program.rt`, then `script.rt` and
//! `checking.rt`.
#![tactic(auto)]

pub use endings::Status;
pub use kept::Kept;
pub use program::run;

mod checking;
mod fraig;
mod kept;
pub mod laws;
mod lemmas;
mod lines;
mod own;
mod program;
mod progress;
mod reading;
mod script;
mod stats;
mod texts;
mod wants;
mod watched;
mod witness;
