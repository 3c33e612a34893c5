//! Output: captures that receive text before the writer does.
ghost use Rattle.std.specs.Prelude.{◌≡◌, ◌++◌, ◌≢◌, ◌⊎◌, ◌↔◌, ℕ, Bool, IsTrue, [], ◌∷◌, length, take, None, Err, IsOk, IsSome, OnOk};
ghost use Rattle.std.specs.Prelude.{OnErr, IfErr};
ghost use Rattle.std.specs.Prelude.{MatchOption, not, string_bytes};
ghost use Rattle.std.specs.Io.KnownBytes.{Appends};
ghost use Rattle.tm_values.specs.declared.error.ErrorKind.TheVariants.{WriteFailure, OutOfMemory};
ghost use Rattle.tm_meaning.specs.Instructions.{is_heard};
ghost use Rattle.tm_meaning.specs.Machine.{first_heard, new_capture, put_in, put_out};
ghost use Rattle.tm_output.specs.Counts.{AppendsBeginning, NoFailure, OneFailure};
ghost use Rattle.tm_definitions.specs.Emitted.{emitted_text};
ghost use Rattle.tm_parts.specs.Halts.{failures_after, EmitHalts, PutHalts};
ghost use Rattle.tm_parts.specs.Outgoing.{ended_value, IsPut, IsPutInPart};
ghost use Rattle.tm_printing.specs.Emits.{Emits};
ghost use Rattle.tm_values.specs.Records.{RecordData};
ghost use Rattle.tm_meaning.specs.World.{is_escaping, without_first};
ghost use Rattle.tm_values.specs.Answer.{OkOrOutOfMemory, OrStays};
ghost use Rattle.tm_values.specs.Val.{text};

use crate::halt::Halt;
use std::alloc::Global;
use std::io;
use std::marker::Model;
use tm_output::{BoundedString, Sink, TargetFailed, put_text, write_text};
use tm_printing::{Unwritten, emit, emit_at_once};
use tm_syntax::CaptureMode;
use tm_values::{AutoEscape, Error, ErrorKind, Records, Value};

/// The text of an open capture, and what happens to it at the end.
#[derive(Drop)]
struct Capture {
    mode: CaptureMode,
    text: BoundedString,
}

impl Model for Capture {
    ghost use Rattle.tm_meaning.specs.Instructions.{is_heard};
    ghost use Rattle.tm_meaning.specs.Machine.{Capture as Waiting};

    ghost Value = { Waiting };

    ghost view = { λ capture. record { heard = is_heard capture.mode; text = capture.text } };
}

/// The open captures, buffers that new captures reuse, and the greatest length of a text. A contract
/// sees the open captures, innermost first.
pub struct Captures {
    open: Vec<Capture>,
    spare: Vec<String>,
    most: usize,
}

// By hand: one call for each owner, instead of a drop of each part.
impl Drop for Captures {
    fn drop(self) {
        let Captures {
            open: _open,
            spare: _spare,
            most: _most,
        } = self;
    }
}

impl Model for Captures {
    ghost use Rattle.std.specs.Prelude.{List, reverse};
    ghost use Rattle.tm_meaning.specs.Machine.{Capture as Waiting};

    ghost Value = { List Waiting };

    ghost view = { λ captures. reverse captures.open.items };
}

impl Captures {
    /// No captures. Their texts are only bounded by memory.
    pub fn new(alloc: Global) -> Captures
        ensures { result ≡ [] }
    {
        Captures::within(alloc, usize::MAX)
    }

    /// No captures. The text of each will have at most `most` bytes; what would make it longer finds
    /// no memory.
    pub fn within(alloc: Global, most: usize) -> Captures
        ensures { result ≡ [] }
    {
        Captures {
            open: Vec::new(alloc),
            spare: Vec::new(alloc),
            most,
        }
    }

    /// Sets the greatest length of the texts of captures that are begun from now on.
    pub fn limit_texts(&mut self, most: usize)
        ensures { self.new ≡ self.old }
    {
        self.most = most;
    }

    /// The allocator of the texts.
    fn allocator(&self) -> Global {
        *self.open.allocator()
    }

    /// The number of open captures.
    pub fn depth(&self) -> usize
        ensures { result ≡ length self.now }
    {
        self.open.len()
    }

    /// Whether no capture is open.
    #[inline(always)]
    pub fn is_empty(&self) -> bool
        ensures { IsTrue result ↔ (self.now ≡ []) }
    {
        self.open.is_empty()
    }

    /// Whether the innermost capture receives what is written; true if none is open.
    pub fn is_heard(&self) -> bool
        ensures { result ≡ first_heard self.now }
    {
        match self.open.last() {
            Some(innermost) => innermost.mode == CaptureMode::Capture,
            None => true,
        }
    }

    /// Opens an empty capture. OutOfMemory if memory runs out; then nothing changes.
    pub fn begin(&mut self, alloc: Global, mode: CaptureMode) -> Result<(), Error>
        ensures ok { OnOk result (self.new ≡ new_capture (is_heard mode) ∷ self.old) }
        ensures kind { IfErr result (λ e. e ≡ OutOfMemory ∷ []) }
        ensures err { OnErr result (self.new ≡ self.old) }
    {
        let text = BoundedString::emptied(self.room(alloc), self.most);
        self.open.push(Capture { mode, text })?;
        Ok(())
    }

    /// The buffer of a new capture: a returned one if there is one.
    fn room(&mut self, alloc: Global) -> String
        ensures { self.new ≡ self.old }
    {
        match self.spare.pop() {
            Some(buffer) => buffer,
            None => String::new(alloc),
        }
    }

    /// Takes back the buffer of a closed capture, for the next one.
    pub fn keep_room(&mut self, text: String)
        ensures { self.new ≡ self.old }
    {
        // If memory runs out, the buffer is dropped.
        let _kept = self.spare.push(text).is_ok();
    }

    /// Closes the innermost capture, and returns its text and what happens to it. None if no
    /// capture is open.
    pub fn end(&mut self) -> Option<(CaptureMode, String)>
        ensures { MatchOption result ((self.old ≡ []) × (self.new ≡ []))
            (λ ended. self.old ≡
            record { heard = is_heard ended.0; text = string_bytes ended.1 } ∷ self.new) }
    {
        let Capture { mode, text } = self.open.pop()?;
        Some((mode, text.into_string()))
    }

    /// Appends a text to the innermost capture, or writes it if none is open. `Writer` if the
    /// writer fails or accepts no bytes. OutOfMemory if memory runs out for a capture; then the
    /// captures are unchanged.
    pub fn write_str<W: Sink>(&mut self, writer: &mut W, text: &str) -> Result<(), Halt>
        ensures captured { OnOk result (self.new ≡ put_in self.old text.now) }
        ensures written { OnOk result (Appends (W.told writer.old).bytes (W.told writer.new).bytes
            (put_out self.old text.now)) }
        ensures beginning { AppendsBeginning (W.told writer.old).bytes (W.told writer.new).bytes
            (put_out self.old text.now) }
        ensures halts { IfErr result (λ halt.
            PutHalts halt self.old (W.told writer.old).bytes (W.told writer.new).bytes) }
        ensures failures { (W.told writer.new).failures
            ≡ failures_after result (W.told writer.old).failures }
        ensures unchanged { OnErr result (self.new ≡ self.old) }
        ensures empty { text.now ≡ [] → IsOk result }
    {
        let Some(mut innermost) = self.open.pop() else {
            return match put_text(writer, text.as_bytes()) {
                Ok(()) => Ok(()),
                Err(_failed) => Err(Halt::Writer),
            };
        };
        let appended = innermost.text.push_str(text);
        // The pop left room for it.
        self.open.push_reserved(innermost);
        match appended {
            Ok(()) => Ok(()),
            Err(_lost) => Err(Halt::Fault(Error::from(ErrorKind::OutOfMemory))),
        }
    }
}

impl Captures {
    /// Emits a value to the innermost capture, or to the writer if none is open, piece by piece.
    /// Call `check_emission` first: the output for a value that it refuses is meaningless. `Writer`
    /// if the writer fails or accepts no bytes. OutOfMemory if memory runs out for a capture or for
    /// the work list; then a beginning of the text was emitted, and the other captures are
    /// unchanged.
    pub fn emit<R: Records, W: Sink>(
        &mut self,
        writer: &mut W,
        value: &Value,
        escape: AutoEscape,
        records: &R,
    ) -> Result<(), Halt>
        ensures captured { OnOk result (self.new ≡ put_in self.old
            (emitted_text escape (R.records records.now) value.now)) }
        ensures written { OnOk result (Appends (W.told writer.old).bytes (W.told writer.new).bytes
            (put_out self.old (emitted_text escape (R.records records.now) value.now))) }
        ensures beginning { AppendsBeginning (W.told writer.old).bytes (W.told writer.new).bytes
            (put_out self.old (emitted_text escape (R.records records.now) value.now)) }
        ensures halts { IfErr result (λ halt. EmitHalts halt self.old) }
        ensures failures { (W.told writer.new).failures
            ≡ failures_after result (W.told writer.old).failures }
        ensures part { OnErr result ((n : ℕ) × (self.new ≡ put_in self.old
            (take n (emitted_text escape (R.records records.now) value.now)))) }
    {
        let alloc = self.allocator();
        let Some(mut innermost) = self.open.pop() else {
            return match emit(alloc, value, escape, records, writer) {
                Ok(()) => Ok(()),
                Err(Unwritten::Target) => Err(Halt::Writer),
                Err(Unwritten::Memory) => Err(Halt::Fault(Error::from(ErrorKind::OutOfMemory))),
            };
        };
        let appended = emit(alloc, value, escape, records, &mut innermost.text);
        // The pop left room for it.
        self.open.push_reserved(innermost);
        match appended {
            Ok(()) => Ok(()),
            Err(_) => Err(Halt::Fault(Error::from(ErrorKind::OutOfMemory))),
        }
    }
}

impl Captures {
    /// Appends a text to the innermost capture, if one is open and there is memory. Otherwise
    /// returns false and changes nothing.
    #[inline(always)]
    pub fn put_at_once(&mut self, text: &str) -> bool
        ensures { OrStays result self.old self.new
            ((self.old ≢ []) × (self.new ≡ put_in self.old text.now)) }
    {
        let count = self.open.len();
        if count == 0 {
            return false;
        }
        self.open[count - 1].text.push_str(text).is_ok()
    }

    /// Emits a number or a text to the innermost capture, if one is open, under an escape that
    /// never refuses it. For other values and escapes it emits nothing and returns None.
    /// TargetFailed if memory runs out; then a beginning of the text was emitted.
    #[inline(always)]
    pub fn emit_at_once(
        &mut self,
        value: &Value,
        escape: AutoEscape,
    ) -> Option<Result<(), TargetFailed>>
        ensures { MatchOption result (self.new ≡ self.old)
            (λ answer. (self.old ≢ []) × ((r : RecordData) →
            Emits IsPut IsPutInPart answer escape r value.now self.old self.new)) }
    {
        let count = self.open.len();
        if count == 0 {
            return None;
        }
        emit_at_once(value, escape, &mut self.open[count - 1].text)
    }
}

/// A captured text as a value, marked safe if there is an escape. OutOfMemory is the only error.
pub fn captured_value(alloc: Global, content: &str, escape: AutoEscape) -> Result<Value, Error>
    ensures { OkOrOutOfMemory result (λ v. v ≡ text content.now (is_escaping escape)) }
{
    match escape {
        AutoEscape::None => Value::text(alloc, content),
        AutoEscape::Html | AutoEscape::Json | AutoEscape::Custom(_) => Value::safe_text(
            alloc, content,
        ),
    }
}

/// A writer, and the captures that are open on top of it.
#[derive(Drop)]
pub struct Output<W: Sink> {
    writer: W,
    captures: Captures,
}

impl<W: Sink> Model for Output<W> {
    ghost use Rattle.tm_parts.specs.Outgoing.{Outgoing};

    ghost Value = { Outgoing W };

    ghost view = { λ output. record { writer = output.writer; captures = output.captures } };
}

impl<W: Sink> Output<W> {
    /// Output to this writer, with no capture open.
    pub fn new(alloc: Global, writer: W) -> Output<W>
        ensures { result ≡ record { writer = writer; captures = [] } }
    {
        Output {
            writer,
            captures: Captures::new(alloc),
        }
    }

    /// Appends a text to the innermost capture, or writes it if none is open. WriteFailure if the
    /// writer fails or accepts no bytes. OutOfMemory if memory runs out for a capture.
    pub fn write_str(&mut self, text: &str) -> Result<(), Error>
        ensures captured { OnOk result (self.new.captures ≡ put_in self.old.captures text.now) }
        ensures written { OnOk result (Appends
            (W.told self.old.writer).bytes (W.told self.new.writer).bytes
            (put_out self.old.captures text.now)) }
        ensures no_fault { OnOk result
            (NoFailure (W.told self.old.writer) (W.told self.new.writer)) }
        ensures beginning { AppendsBeginning
            (W.told self.old.writer).bytes (W.told self.new.writer).bytes
            (put_out self.old.captures text.now) }
        ensures kind { IfErr result (λ e. (e ≡ WriteFailure ∷ []) ⊎ (e ≡ OutOfMemory ∷ [])) }
        ensures unchanged { OnErr result (self.new.captures ≡ self.old.captures) }
        ensures failed { result ≡ Err (WriteFailure ∷ []) → (self.old.captures ≡ [])
            × OneFailure (W.told self.old.writer) (W.told self.new.writer) }
        ensures memory { result ≡ Err (OutOfMemory ∷ []) → (self.old.captures ≢ [])
            × (W.told self.new.writer ≡ W.told self.old.writer) }
        ensures empty { text.now ≡ [] → IsOk result }
    {
        Ok(self.captures.write_str(&mut self.writer, text)?)
    }

    /// Opens a capture, which receives what is written from here on. OutOfMemory if memory runs
    /// out; then nothing changes.
    pub fn begin_capture(&mut self, mode: CaptureMode) -> Result<(), Error>
        ensures ok { OnOk result (self.new ≡ record self.old
            { captures = new_capture (is_heard mode) ∷ self.old.captures }) }
        ensures kind { IfErr result (λ e. e ≡ OutOfMemory ∷ []) }
        ensures err { OnErr result (self.new ≡ self.old) }
    {
        let alloc = self.captures.allocator();
        self.captures.begin(alloc, mode)
    }

    /// Closes the innermost capture and returns its text, marked safe if there is an escape.
    /// Undefined if the capture dropped its text, or none is open. OutOfMemory if memory runs out
    /// for the value; then the text is lost.
    pub fn end_capture(&mut self, escape: AutoEscape) -> Result<Value, Error>
        ensures value { OkOrOutOfMemory result
            (λ v. v ≡ ended_value escape self.old.captures) }
        ensures closed { self.new ≡ record self.old
            { captures = without_first self.old.captures } }
    {
        let alloc = self.captures.allocator();
        let Some((mode, text)) = self.captures.end() else {
            return Ok(Value::undefined());
        };
        let value = match mode {
            CaptureMode::Capture => captured_value(alloc, text.as_str(), escape),
            CaptureMode::Discard => Ok(Value::undefined()),
        };
        self.captures.keep_room(text);
        value
    }

    /// Whether the innermost capture drops what is written.
    pub fn is_discarding(&self) -> bool
        ensures { result ≡ not (first_heard self.now.captures) }
    {
        !self.captures.is_heard()
    }

    /// The writer.
    pub fn writer(&self) -> &W
        ensures { result.now ≡ self.now.writer }
    {
        &self.writer
    }

    /// The writer, without the captures, whose texts are lost.
    pub fn into_writer(self) -> W
        ensures { result ≡ self.writer }
    {
        let Output { writer, .. } = self;
        writer
    }
}

/// A writer, and the error that it failed with, since an `Error` can't hold one.
#[derive(Drop)]
pub struct WriteWrapper<W: Sink> {
    /// The writer.
    pub w: W,
    /// Its last error that wasn't taken yet.
    pub err: Option<io::Error>,
}

impl<W: Sink> WriteWrapper<W> {
    /// Wraps a writer, with no error.
    pub fn new(w: W) -> WriteWrapper<W>
        ensures { result ≡ record { w = w; err = None } }
    {
        WriteWrapper { w, err: None }
    }

    /// Writes a text. WriteFailure if the writer fails or accepts no bytes; then its error is
    /// stored in `err`.
    pub fn write_str(&mut self, text: &str) -> Result<(), Error>
        ensures written { OnOk result
            (Appends (W.told self.old.w).bytes (W.told self.new.w).bytes text.now) }
        ensures no_fault { OnOk result (NoFailure (W.told self.old.w) (W.told self.new.w)) }
        ensures same_error { OnOk result (self.new.err ≡ self.old.err) }
        ensures kind { IfErr result (λ e. e ≡ WriteFailure ∷ []) }
        ensures beginning { AppendsBeginning
            (W.told self.old.w).bytes (W.told self.new.w).bytes text.now }
        ensures fault { OnErr result (OneFailure (W.told self.old.w) (W.told self.new.w)) }
        ensures kept { OnErr result (IsSome self.new.err) }
        ensures empty { text.now ≡ [] → IsOk result }
    {
        match write_text(&mut self.w, text.as_bytes()) {
            Ok(()) => Ok(()),
            Err(error) => {
                self.err = Some(error);
                Err(Error::from(ErrorKind::WriteFailure))
            }
        }
    }

    /// Takes the error in `err`. Returns WriteFailure without a cause if there was one, and
    /// otherwise `original`.
    pub fn take_err(&mut self, original: Error) -> Error
        ensures writer { self.new.w ≡ self.old.w }
        ensures emptied { self.new.err ≡ None }
        ensures fault { IsSome self.old.err → result ≡ WriteFailure ∷ [] }
        ensures original { self.old.err ≡ None → result ≡ original }
    {
        match self.err.take() {
            Some(_error) => Error::from(ErrorKind::WriteFailure),
            None => original,
        }
    }
}
