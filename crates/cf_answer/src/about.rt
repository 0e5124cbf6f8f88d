//! What the program says of itself.
ghost use Rattle.std.specs.Prelude.{◌≡◌, [], List, ℕ, flat_map, map};
ghost use Rattle.cf_io.specs.Seen.{SourceSeen};
ghost use Rattle.cf_pass.specs.Passes.{Told};
ghost use Rattle.cf_words.specs.Commands.{help as the_help, version as the_version};
ghost use Rattle.cf_answer.specs.About.{help_text, version_text};
ghost use Rattle.cf_answer.specs.Ends.{AnswersOn};
ghost use Rattle.cf_answer.specs.Outside.{streams};
ghost use Rattle.cf_answer.specs.Statuses.{status_of as the_status_of, IsEarly};

use crate::fault::Fault;
use crate::write::write_text;
use cf_io::Sink;

const HELP: &[u8] = b"usage: comfusy COMMAND ..\n\
\x20 compile FILE [--plain] [--stats]                write the compiled program, the target\n\
\x20 run FILE [--plain] [--stats] [--key] [--jsonl]  answer the lines of the input by the program\n\
\x20 pre FILE                                        write for which inputs each choose has outputs\n\
\x20 check FILE [--strict [--unique]]                write whether there always are outputs, and one only\n\
\x20 exec FILE [--key] [--jsonl]                     answer the lines of the input by a target\n\
\x20 prove FILE                                      write the steps by which each choose was solved\n\
\x20 emit LANG FILE [--main] [--name NAME]           write the program as a file of c, python, js, rust or smt\n\
\x20 verify FILE STEPS                               check such steps\n\
\x20 gen N                                           run a generated workload\n\
\x20 --help, -h                                      write this\n\
\x20 --version                                       write the version, and the editions of the language\n\
FILE holds a source, and for exec a target; compile, pre, check, prove and emit take - for the standard input.\n\
The guide is docs/GUIDE.md; man comfusy has all the rest.\n";

/// Writes each command with its flags, and where the guide is.
pub fn write_help<O: Sink>(out: &mut O) -> Result<(), Fault>
    ensures answers { (given : List Told) (input : SourceSeen) →
        AnswersOn the_help given given [] (streams input (O.seen out.old)) (streams input (O.seen out.new)) result }
    ensures unwritten { IsEarly (the_status_of result) → out.new ≡ out.old }
{
    write_text(out, HELP)
}

/// Writes the name and the version of the program, and the editions of the language that it takes.
pub fn write_version<O: Sink>(out: &mut O) -> Result<(), Fault>
    ensures answers { (given : List Told) (input : SourceSeen) →
        AnswersOn the_version given given [] (streams input (O.seen out.old)) (streams input (O.seen out.new)) result }
    ensures unwritten { IsEarly (the_status_of result) → out.new ≡ out.old }
{
    write_text(out, b"comfusy 1.0, editions 2 and 3 of the language\n")
}
