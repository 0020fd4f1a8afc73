//! What holds after every list of events, whatever frames and acknowledgements the network loses, repeats and reorders, and
//! whichever paths are down.
ghost use Rattle.std.specs.Prelude.{◌≡◌, ℕ, ◌+◌, ◌≤◌, ◌<◌, ◌-◌, ◌^◌, List, length, take, slice_get, All, Ok};
ghost use Rattle.ft_connection.specs.declared.event.Event.{Event};
ghost use Rattle.ft_connection.specs.declared.frame.Path.{Path};
ghost use Rattle.ft_connection.specs.Words.{capped};
ghost use Rattle.ft_connection.specs.FileReading.{file_read};
ghost use Rattle.ft_connection.specs.FileText.{file_text, said, IsShort};
ghost use Rattle.ft_connection.specs.World.{World, wire, first, run, jobs_handed};
ghost use Rattle.ft_connection.specs.Sound.{IsOwn};

/// The jobs that are handed over are a prefix of the jobs to be sent, each once and in order: the first jobs, as many as the
/// receiver counts.
pub fn jobs_are_handed_over_once_and_in_order()
    ensures prefix { (jobs : List ℕ) (events : List Event) → jobs_handed (first jobs) events ≡ take (run (first jobs) events).handed jobs }
    ensures count { (jobs : List ℕ) (events : List Event) → length (jobs_handed (first jobs) events) ≡ (run (first jobs) events).handed }
{}

/// No frame that was ever sent names another job than its own.
pub fn frames_name_their_own_jobs()
    ensures { (jobs : List ℕ) (events : List Event) (path : Path) → All (IsOwn jobs) (wire (run (first jobs) events).wires path).frames }
{}

/// No more jobs are acknowledged than handed over, and no acknowledgement on its way says otherwise.
pub fn no_more_is_acknowledged_than_handed_over()
    ensures acked { (jobs : List ℕ) (events : List Event) → (run (first jobs) events).sender.acked ≤ length (jobs_handed (first jobs) events) }
    ensures acks { (jobs : List ℕ) (events : List Event) (path : Path)
        → All (λ next. next ≤ length (jobs_handed (first jobs) events)) (wire (run (first jobs) events).wires path).acks }
{}

/// That a long number counts as 4,294,967,295 decides nothing: after fewer events than that it names what the number names,
/// which is nothing.
pub fn long_numbers_name_what_they_say()
    ensures frames { (jobs : List ℕ) (events : List Event) (path : Path) (which : ℕ) → length events < 2 ^ 32 - 1
        → slice_get (wire (run (first jobs) events).wires path).frames (capped which) ≡ slice_get (wire (run (first jobs) events).wires path).frames which }
    ensures acks { (jobs : List ℕ) (events : List Event) (path : Path) (which : ℕ) → length events < 2 ^ 32 - 1
        → slice_get (wire (run (first jobs) events).wires path).acks (capped which) ≡ slice_get (wire (run (first jobs) events).wires path).acks which }
{}

/// A file that is written line by line, with one blank between words and without remarks, says exactly the jobs and the events
/// that were written, each event with the number of its line. Its numbers are below 4,294,967,296, and it has at most
/// 20,000 lines.
pub fn a_written_file_is_read_again()
    ensures { (jobs : List ℕ) (events : List Event) → All (λ job. job < 2 ^ 32) jobs → All IsShort events → length jobs + length events < 20000
        → file_read (file_text jobs events) ≡ Ok (said jobs events) }
{}
