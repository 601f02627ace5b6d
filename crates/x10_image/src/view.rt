ghost use Rattle.x10_code.specs.declared.instr.Instr.{Instr};
ghost use Rattle.std.specs.Prelude.{◌≡◌, ◌^◌, ◌<◌, ◌≤◌, List, Ok, Some, IfOk, IsTrue, length, slice_get};
ghost use Rattle.std.specs.List.{flat_map};
ghost use Rattle.std.specs.Int.{w16, to_be_bytes};
ghost use Rattle.x10_code.specs.Spelling.{IsInstr, spelling as instruction};
ghost use Rattle.x10_model.specs.Modules.{Module, Function, FitsImage, FitsText, FitsClass, IsEntry, is_known};
ghost use Rattle.x10_model.specs.Ranges.{function_at, instr_at};
ghost use Rattle.x10_model.specs.Images.{number_of, class_bytes, int_bytes, function_bytes, spelling};
ghost use Rattle.x10_model.specs.ReadingImages.{module_at, is_entry};
ghost use Rattle.x10_model.specs.Offsets.{AreAt};
ghost use Rattle.x10_image.specs.Faults.{Gives};
ghost use Rattle.x10_image.specs.Parts.{place_of_class, place_of_int, place_of_text, place_of_signature, place_of_count, place_of_code, place_of_instr, FitsSignature, signature_of, signature_bytes, code_at};
ghost use Rattle.x10_bytes.specs.Tables.{IsPart};

use crate::class_view::ClassView;
use crate::fault::ImageFault;
use crate::header::{Header, read_header};
use crate::offsets::{
    class_in, code_len_in, code_place, instr_in, operand_in, signature_in, text_in,
};
use crate::parts::past_ints;
use crate::sig_view::SigView;
use crate::tables::{class_table, function_table, text_table};
use std::alloc::Global;
use std::marker::Model;
use x10_bytes::i64_in;
use x10_code::Instr;
use x10_model::ImageVersion;

/// A module's image, read in place: the bytes themselves, and where each class, text and function
/// begins. Clauses see the module.
#[derive(Drop)]
pub struct ImageView<'a> {
    bytes: &'a [u8],
    header: Header,
    ints: usize,
    classes: Vec<usize>,
    texts: Vec<usize>,
    functions: Vec<usize>,
}

impl<'a> Model for ImageView<'a> {
    ghost use Rattle.x10_model.specs.Modules.{Module};

    ghost Value = { Module };

    ghost use Rattle.x10_image.specs.Views.{IsView, module_in};

    ghost view = { λ a. module_in a.bytes.now };

    ghost invariant = { λ a. IsView a.bytes.now a.header a.ints a.classes.items a.texts.items a.functions.items };
}

/// Whether a function with the entry's number is there and takes and gives nothing, by its first
/// bytes.
fn has_entry(bytes: &[u8], functions: &[usize], entry: u16) -> bool
    requires { (all : List Function) × AreAt function_bytes bytes.now functions.now all }
    ensures { (all : List Function) → AreAt function_bytes bytes.now functions.now all
        → result ≡ is_entry (slice_get all entry) }
{
    let entry = usize::from(entry);
    if functions.len() <= entry {
        return false;
    }
    let at = functions[entry];
    bytes[at] == 0 && bytes[at + 4] == 0
}

fn whole<'a>(alloc: Global, bytes: &'a [u8]) -> Result<ImageView<'a>, ImageFault>
    ensures exact { Gives (λ v. v) result (module_at bytes.now) }
{
    let (header, rest) = read_header(bytes)?;
    let (classes, rest) = class_table(alloc, bytes, rest, header.classes)?;
    let ints = bytes.len() - rest.len();
    let rest = past_ints(rest, header.ints)?;
    let (texts, rest) = text_table(alloc, bytes, rest, header.texts)?;
    let (functions, rest) = function_table(
        alloc,
        bytes,
        rest,
        header.version,
        header.classes,
        header.functions,
    )?;
    if !rest.is_empty() {
        return Err(ImageFault::Trailing);
    }
    if !has_entry(bytes, &functions, header.entry) {
        return Err(ImageFault::Entry);
    }
    Ok(ImageView {
        bytes,
        header,
        ints,
        classes,
        texts,
        functions,
    })
}

impl<'a> ImageView<'a> {
    /// The view of an image. A fault is the first one from front to back. One pass over the bytes;
    /// the memory taken is 8 bytes for each class, text and function that is there.
    pub fn read(alloc: Global, bytes: &'a [u8]) -> Result<ImageView<'a>, ImageFault>
        ensures found { IfOk result (λ m. FitsImage m × (bytes.now ≡ spelling m)) }
        ensures only { (m : Module) → FitsImage m → bytes.now ≡ spelling m
            → Gives (λ v. v) result (Ok m) }
        ensures exact { Gives (λ v. v) result (module_at bytes.now) }
    {
        whole(alloc, bytes)
    }

    /// The same module, over other bytes that spell it: for a caller that verified a module before it keeps a copy of its image.
    /// Constant time and no memory.
    pub fn over<'b>(self, bytes: &'b [u8]) -> ImageView<'b>
        requires same { bytes.now ≡ spelling self }
        ensures { result ≡ self.entry }
    {
        ImageView {
            bytes,
            header: self.header,
            ints: self.ints,
            classes: self.classes,
            texts: self.texts,
            functions: self.functions,
        }
    }

    /// What holds for every image's module, for callers whose own clauses rely on it. It does nothing.
    pub fn fits(&self)
        ensures { FitsImage self.now }
    {
        let _ = &self.bytes;
    }

    /// The version of the image, by its number: bytes 4 and 5. Constant time and no memory, like all that follow.
    pub fn version(&self) -> ImageVersion
        ensures value { result ≡ self.now.version }
        ensures part { IsPart (spelling self.now) 4 (to_be_bytes w16 (number_of result)) }
    {
        self.header.version
    }

    /// The least number of places that the module asks for, 1 to 64: bytes 6 and 7 of the image.
    pub fn least(&self) -> u16
        ensures value { result ≡ self.now.least_places }
        ensures range { (1 ≤ result) × (result ≤ 64) }
        ensures part { IsPart (spelling self.now) 6 (to_be_bytes w16 result) }
    {
        self.header.least_places
    }

    /// The number of the function that a run begins with, which takes and gives nothing: bytes 16 and 17.
    pub fn entry(&self) -> u16
        ensures value { result ≡ self.now.entry }
        ensures below { result < length self.now.functions }
        ensures there { (f : Function) × (function_at self.now result ≡ Some f) × IsEntry f }
        ensures part { IsPart (spelling self.now) 16 (to_be_bytes w16 result) }
    {
        self.header.entry
    }

    /// How many classes there are: bytes 8 and 9.
    pub fn classes(&self) -> usize
        ensures value { result ≡ length self.now.classes }
        ensures few { result < 2 ^ 16 }
        ensures part { IsPart (spelling self.now) 8 (to_be_bytes w16 result) }
    {
        self.classes.len()
    }

    /// How many constant numbers there are: bytes 10 and 11.
    pub fn ints(&self) -> usize
        ensures value { result ≡ length self.now.ints }
        ensures few { result < 2 ^ 16 }
        ensures part { IsPart (spelling self.now) 10 (to_be_bytes w16 result) }
    {
        usize::from(self.header.ints)
    }

    /// How many constant texts there are: bytes 12 and 13.
    pub fn texts(&self) -> usize
        ensures value { result ≡ length self.now.texts }
        ensures few { result < 2 ^ 16 }
        ensures part { IsPart (spelling self.now) 12 (to_be_bytes w16 result) }
    {
        self.texts.len()
    }

    /// How many functions there are, 1 to 256: bytes 14 and 15.
    pub fn functions(&self) -> usize
        ensures value { result ≡ length self.now.functions }
        ensures range { (1 ≤ result) × (result ≤ 256) }
        ensures part { IsPart (spelling self.now) 14 (to_be_bytes w16 result) }
    {
        self.functions.len()
    }

    /// A constant number: 8 of the image's bytes.
    pub fn int(&self, i: usize) -> i64
        requires { i < length self.now.ints }
        ensures value { slice_get self.now.ints i ≡ Some result }
        ensures part { IsPart (spelling self.now) (place_of_int self.now i) (int_bytes result) }
    {
        i64_in(self.bytes, self.ints + 8 * i)
    }

    /// A constant text, in the image's bytes: after its length there.
    pub fn text(&self, i: usize) -> &'a str
        requires { i < length self.now.texts }
        ensures value { slice_get self.now.texts i ≡ Some result.now }
        ensures fits { FitsText result.now }
        ensures part { IsPart (spelling self.now) (place_of_text self.now i) result.now }
    {
        let bytes = self.bytes;
        text_in(bytes, self.texts[i])
    }

    /// The fields of a class, in the image's bytes: after their number there.
    #[inline(always)]
    pub fn class(&self, c: usize) -> ClassView<'a>
        requires { c < length self.now.classes }
        ensures value { slice_get self.now.classes c ≡ Some result }
        ensures fits { FitsClass (length self.now.classes) result }
        ensures part { IsPart (spelling self.now) (place_of_class self.now c) (class_bytes result) }
    {
        let bytes = self.bytes;
        class_in(bytes, self.classes[c])
    }

    /// What a function takes, gives and needs: the bytes that it begins with in the image.
    #[inline(always)]
    pub fn signature(&self, f: usize) -> SigView<'a>
        requires { f < length self.now.functions }
        ensures value { (g : Function) × (function_at self.now f ≡ Some g)
            × (result ≡ signature_of g) }
        ensures fits { FitsSignature (length self.now.classes) result }
        ensures part { IsPart (spelling self.now) (place_of_signature self.now f)
            (signature_bytes result) }
    {
        let bytes = self.bytes;
        signature_in(bytes, self.functions[f])
    }

    /// How many instructions a function has, 1 to 4,096: two bytes, four before the first of them.
    pub fn code_len(&self, f: usize) -> usize
        requires { f < length self.now.functions }
        ensures value { result ≡ length (code_at self.now f) }
        ensures range { (1 ≤ result) × (result ≤ 4096) }
        ensures part { IsPart (spelling self.now) (place_of_count self.now f)
            (to_be_bytes w16 result) }
    {
        code_len_in(self.bytes, self.functions[f])
    }

    /// A function's instructions, 8 bytes each, in the image's bytes.
    #[inline(always)]
    pub fn code(&self, f: usize) -> &'a [u8]
        requires { f < length self.now.functions }
        ensures value { result.now ≡ flat_map instruction (code_at self.now f) }
        ensures part { IsPart (spelling self.now) (place_of_code self.now f) result.now }
    {
        let bytes = self.bytes;
        let at = self.functions[f];
        let start = code_place(bytes, at);
        &bytes[start..start + 8 * code_len_in(bytes, at)]
    }

    /// An instruction of a function: 8 of the image's bytes.
    #[inline(always)]
    pub fn instr(&self, f: usize, pc: usize) -> Instr
        requires function { f < length self.now.functions }
        requires pc { pc < length (code_at self.now f) }
        ensures value { instr_at self.now f pc ≡ Some result }
        ensures fits { IsInstr result }
        ensures known { IsTrue (is_known self.now.version result.op) }
        ensures part { IsPart (spelling self.now) (place_of_instr self.now f pc)
            (instruction result) }
    {
        let start = code_place(self.bytes, self.functions[f]);
        instr_in(self.bytes, start + 8 * pc)
    }

    /// The first operand of an instruction, the second of its eight bytes; the others aren't looked at. Constant time.
    #[inline(always)]
    pub fn first_operand(&self, f: usize, pc: usize) -> u8
        requires function { f < length self.now.functions }
        requires pc { pc < length (code_at self.now f) }
        ensures { (i : Instr) → instr_at self.now f pc ≡ Some i → result ≡ i.a }
    {
        let start = code_place(self.bytes, self.functions[f]);
        operand_in(self.bytes, start + 8 * pc)
    }

    /// An instruction of a function, as `instr` answers it, from the function's code as `code` gives it. For a loop over the
    /// instructions of one function, where the function is looked up once. Constant time.
    #[inline(always)]
    pub fn instr_from(&self, code: &[u8], f: usize, pc: usize) -> Instr
        requires function { f < length self.now.functions }
        requires code { code.now ≡ flat_map instruction (code_at self.now f) }
        requires pc { pc < length (code_at self.now f) }
        ensures value { instr_at self.now f pc ≡ Some result }
        ensures fits { IsInstr result }
    {
        let _ = &self.bytes;
        let _ = f;
        instr_in(code, 8 * pc)
    }
}
