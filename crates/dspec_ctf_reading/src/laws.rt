//! What follows from the definitions, as clauses of functions that have nothing to do.

ghost use Rattle.std.specs.Option.{option_and_then};
ghost use Rattle.std.specs.Prelude.{◌≡◌, ◌≤◌, ◌++◌, ◌∷◌, [], ◌-◌, ℕ, true, false, List, length, codes, drop, take, slice_set, Option, Some, None};
ghost use Rattle.dspec_record.specs.{EnablingRows.EnabledRows, Record.Record};
ghost use Rattle.dspec_ctf.specs.Names.{origin_fault};
ghost use Rattle.dspec_ctf.specs.declared.{form.Form.Form, form.Form.TheVariants.AsTaken, form.Form.TheVariants.ByTime, names.Names.Names, origin.Origin.Origin};
ghost use Rattle.dspec_probe.specs.declared.probes.ProbeNames.{ProbeNames};
ghost use Rattle.dspec_ctf_reading.specs.{Fronts.split_packet, Laws.IsCalledBy, Laws.IsReadAs, Laws.IsReadAsTaken, Laws.MetadataTells, Laws.MissedReadsBack, Laws.RunsReadBack, Laws.then_others};
ghost use Rattle.dspec_ctf_reading.specs.{Laws.with_its_events, Laws.FilledFilesReadBack, Laws.FilledPacketsReadBack, Laws.TakenFilesReadBack, Laws.TakenPacketsReadBack, Laws.TimedFilesReadBack};
ghost use Rattle.dspec_ctf_reading.specs.{Laws.TimedPacketsReadBack, Layouts.event_of, Layouts.given_for, Reading.Layout, Reading.PacketRead, Reading.read_packets_within, Reading.read_events_within};
ghost use Rattle.dspec_ctf_reading.specs.{Reading.read_event, Reading.read_events, Reading.read_packet, Reading.read_file, ReadingMetadata.read_field, ReadingMetadata.read_metadata};
ghost use Rattle.dspec_ctf_reading.specs.{ReadingMetadata.read_type, Sample.sample_layout, Sample.sample_bytes, Sample.sample_packet, Sample.filled_bytes, Sample.sized, Sample.stamped_bytes};
ghost use Rattle.dspec_ctf_reading.specs.{Sample.stamped_packet, SampleMetadata.timed_text, SampleMetadata.timed_text_layout, SampleMetadata.taken_text, SampleMetadata.taken_text_layout};
ghost use Rattle.dspec_ctf_reading.specs.{ToldNumbers.HasNumbers};

/// The number that shows that reading comes to an end changes nothing, from the number of bytes on.
pub fn bound_is_enough()
    ensures events { (layout : Layout) (most : ℕ) (bytes : List ℕ) → length bytes ≤ most → read_events_within most layout bytes ≡ read_events layout bytes }
    ensures packets { (layout : Layout) (most : ℕ) (bytes : List ℕ) → length bytes ≤ most → read_packets_within most layout bytes ≡ read_file layout bytes }
{}

/// Where bytes are left, one event is read, or one packet, and then the others; no number bounds how many.
pub fn reads_on()
    ensures events { (layout : Layout) (b : ℕ) (bytes : List ℕ) → read_events layout (b ∷ bytes) ≡ then_others (read_events layout) (read_event layout (b ∷ bytes)) }
    ensures packets { (layout : Layout) (b : ℕ) (bytes : List ℕ) → read_file layout (b ∷ bytes) ≡ then_others (read_file layout) (read_packet layout (b ∷ bytes)) }
{}

/// To read a packet is to split it and to read its events.
pub fn packet_is_split()
    ensures { (layout : Layout) (bytes : List ℕ) → read_packet layout bytes ≡ option_and_then (λ s. with_its_events layout s) (split_packet layout.timed bytes) }
{}

/// What is written after a file changes nothing of what the file has, and is read after it.
pub fn files_join()
    ensures { (layout : Layout) (a b : List ℕ) (ps qs : List PacketRead) → read_file layout a ≡ Some ps → read_file layout b ≡ Some qs
        → read_file layout (a ++ b) ≡ Some (ps ++ qs) }
{}

/// Two packets by hand say what they were made to say, alone and one after another; and one that is filled up says the same.
pub fn worked_packets()
    ensures taken { read_packet (sample_layout false) sample_bytes ≡ Some (sample_packet, []) }
    ensures timed { read_packet (sample_layout true) (stamped_bytes ++ 255 ∷ []) ≡ Some (stamped_packet, 255 ∷ []) }
    ensures file { read_file (sample_layout false) (sample_bytes ++ sample_bytes) ≡ Some (sample_packet ∷ sample_packet ∷ []) }
    ensures filled { read_file (sample_layout false) (filled_bytes ++ sample_bytes) ≡ Some (sample_packet ∷ sample_packet ∷ []) }
{}

/// What is no packet is refused: bytes that are cut short, that begin late or are of a trace of the other form; another magic number, another
/// stream; content that ends within a byte, before the events or after its packet; a packet that ends within a byte or after the file; an
/// event that nobody knows, and one that is cut.
pub fn worked_refusals()
    ensures short { read_packet (sample_layout false) (take 74 sample_bytes) ≡ None }
    ensures late { read_packet (sample_layout false) (drop 1 sample_bytes) ≡ None }
    ensures other_form { read_packet (sample_layout true) sample_bytes ≡ None }
    ensures magic { read_packet (sample_layout false) (slice_set sample_bytes 0 192) ≡ None }
    ensures stream { read_packet (sample_layout false) (slice_set sample_bytes 20 1) ≡ None }
    ensures content_within_a_byte { read_packet (sample_layout false) (slice_set filled_bytes 24 89) ≡ None }
    ensures packet_within_a_byte { read_packet (sample_layout false) (slice_set filled_bytes 32 105) ≡ None }
    ensures before_the_events { read_packet (sample_layout false) (sized 152 1) ≡ None }
    ensures after_the_packet { read_packet (sample_layout false) (slice_set sample_bytes 24 120 ++ 1 ∷ 0 ∷ 0 ∷ 0 ∷ []) ≡ None }
    ensures after_the_file { read_packet (sample_layout false) (sized 96 2) ≡ None }
    ensures event { read_packet (sample_layout false) (slice_set sample_bytes 52 4) ≡ None }
    ensures cut { read_packet (sample_layout false) (slice_set sample_bytes 24 80) ≡ None }
    ensures rest { read_file (sample_layout false) (sample_bytes ++ 193 ∷ []) ≡ None }
{}

/// What is read of a packet that was written is the records that were written, each with its values under its names, in order, with what
/// was missed, the CPU and the trace; and what stands after the packet is left.
pub fn packet_reads_back()
    ensures taken { (e : EnabledRows) (names : Names) → TakenPacketsReadBack e names }
    ensures timed { (e : EnabledRows) (names : Names) → TimedPacketsReadBack e names }
{}

/// What is read of the packets of 1,024 bytes of records, in a trace of either form, is those records, each packet's after another's.
pub fn filled_packets_read_back()
    ensures { (e : EnabledRows) (names : Names) (form : Form) → FilledPacketsReadBack e names form }
{}

/// An event that is read of a record has its EPID, its stamp, and its values in order; the stamp is the first value where the trace has no
/// clock. Its name and its fields' names are those given for the EPID.
pub fn event_is_its_record()
    ensures timed { (e : EnabledRows) (names : Names) (frequency : ℕ) (r : Record) → IsReadAs (event_of e names (ByTime frequency) r) r.epid (Some r.stamp) r.values }
    ensures taken { (e : EnabledRows) (names : Names) (r : Record) → IsReadAsTaken e.header r (event_of e names AsTaken r) }
    ensures named { (e : EnabledRows) (names : Names) (frequency : ℕ) (r : Record) (n : ProbeNames) → given_for names r.epid ≡ Some n
        → IsCalledBy n r.values (event_of e names (ByTime frequency) r) }
{}

/// A CPU's file as taken, of batches that have each so many missed so far: it tells all records of the batches in order, and what was
/// missed up to the last.
pub fn taken_file_reads_back()
    ensures { (e : EnabledRows) (names : Names) → TakenFilesReadBack e names }
{}

/// A CPU's file by time: it tells these records in order, and what was missed.
pub fn timed_file_reads_back()
    ensures { (e : EnabledRows) (names : Names) → TimedFilesReadBack e names }
{}

/// What a batch adds to a CPU's files while it runs. By time each file tells those of the records that go to it, in order, and the first alone
/// what was missed; two packets without events tell what was missed where no records come. As taken the CPU's file tells all records of its
/// batches in order, and what was missed up to the last. What is added to a file is read after what it has (`files_join`).
pub fn live_file_reads_back()
    ensures runs { (e : EnabledRows) (names : Names) → RunsReadBack e names }
    ensures missed { (e : EnabledRows) (names : Names) → MissedReadsBack e names }
    ensures taken { (e : EnabledRows) (names : Names) → FilledFilesReadBack e names }
{}

/// Two texts of metadata by hand tell their layouts.
#[tactic(auto, unfolding(crate::specs::ReadingMetadata::is_digit, crate::specs::ReadingMetadata::is_word, crate::specs::ReadingMetadata::is_quoted))]
pub fn worked_metadata()
    ensures timed { read_metadata timed_text ≡ Some timed_text_layout }
    ensures taken { read_metadata taken_text ≡ Some taken_text_layout }
{}

/// What isn't known in a text of metadata is refused: a text that is cut or goes on, another byte order, another type, an enumeration of
/// floats, a label without its number.
#[tactic(auto, unfolding(crate::specs::ReadingMetadata::is_digit, crate::specs::ReadingMetadata::is_word, crate::specs::ReadingMetadata::is_quoted))]
pub fn worked_metadata_refusals()
    ensures cut { read_metadata (take (length taken_text - 1) taken_text) ≡ None }
    ensures goes_on { read_metadata (taken_text ++ codes "\n") ≡ None }
    ensures order { read_metadata (slice_set taken_text 400 98) ≡ None }
    ensures field_type { read_field (codes "\t\tuint24_t arg_0;\n") ≡ None }
    ensures enumeration { read_type (codes "enum : floating_point { exp_dig = 8; mant_dig = 24; align = 8; } { \"ok\" = 0, }") ≡ None }
    ensures label { read_type (codes "enum : uint8_t { \"ok\", }") ≡ None }
{}

/// The metadata that is written tells the layout of which the other laws speak, wherever names, form and process are such that it is
/// written at all (`origin_fault` has nothing to say).
pub fn metadata_reads_back()
    ensures { (origin : Origin) (form : Form) (e : EnabledRows) (names : Names) → origin_fault origin form e names ≡ None → HasNumbers origin form e names
        → MetadataTells origin form e names }
{}
