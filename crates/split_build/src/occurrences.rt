//! What a document says: its keys, each with its places.

ghost use Rattle.std.specs.Prelude.{◌≡◌, ◌<◌, ◌^◌, ◌++◌, ℕ, List, [], IfOk, OnOk, length, false};
ghost use Rattle.std.specs.List.{AllByRecursion};
ghost use Rattle.std.specs.Str.{IsAscii};
ghost use Rattle.doc_value.specs.declared.schema.Field.{Field};
ghost use Rattle.doc_value.specs.declared.schema.Schema.{Schema};
ghost use Rattle.doc_value.specs.Documents.{IsSchema, values_in};
ghost use Rattle.doc_value.specs.Terms.{term_bytes};
ghost use Rattle.query_ast.specs.FieldTokens.{field_tokens};
ghost use Rattle.split_bundle.specs.Keys.{field_key, presence_key, value_place, of_tokens, of_value, of_values, of_field, keys_of};
ghost use Rattle.split_bundle.specs.Lists.{keeps_places};
ghost use Rattle.split_build.specs.Said.{in_document};
ghost use Rattle.split_build.specs.Walks.{Adds, IsKept, IsShort, AreShort, IsShortDoc};
ghost use Rattle.split_build.specs.Words.{letter_of, next_position, next_word, of_byte, of_word, position_behind};
ghost use Rattle.text_tokens.specs.Tokens.{default_tokens, raw_tokens};

use crate::terms::TermLog;
use doc_value::{DocField, Field, Schema, Tokenizer, Value, turned};
use query_ast::tokens_of;
use std::alloc::{AllocError, Global};
use text_tokens::{MAX_TOKEN, Token};

// The number of a field takes so many bytes of a key.
const PREFIX: usize = 2;

// A value's place among those of its field, and the position of a token in it.
fn place_of(value: usize, position: usize) -> u64
    requires value { value < 2 ^ 32 }
    requires position { position < 2 ^ 32 }
    ensures { result ≡ value_place value position }
{
    value as u64 * 0x1_0000_0000 + position as u64
}

// Puts the key of a term into a buffer.
fn put_key(key: &mut Vec<u8>, number: usize, term: &[u8]) -> Result<(), AllocError>
    requires { number < 2 ^ 16 }
    ensures { OnOk result (key.new.items ≡ field_key number term.now) }
{
    key.clear();
    key.push((number / 256) as u8)?;
    key.push((number % 256) as u8)?;
    key.extend_from_slice(term)
}

// Puts the term of a value behind what is in a buffer.
fn put_term(key: &mut Vec<u8>, value: &Value) -> Result<(), AllocError>
    ensures { OnOk result (key.new.items ≡ key.old.items ++ term_bytes value.now) }
{
    match value {
        Value::Text(text) => key.extend_from_slice(text.as_slice()),
        Value::I64(number) => key.extend_from_slice(&turned(*number).to_be_bytes()),
        Value::U64(number) => key.extend_from_slice(&number.to_be_bytes()),
        Value::Bool(truth) => {
            key.push(u8::from(*truth))?;
            Ok(())
        }
        Value::Datetime(seconds) => key.extend_from_slice(&turned(*seconds).to_be_bytes()),
    }
}

// The key of the documents that have a value of a field.
fn put_presence(key: &mut Vec<u8>, number: usize) -> Result<(), AllocError>
    requires { number < 2 ^ 16 }
    ensures { OnOk result (key.new.items ≡ presence_key number) }
{
    key.clear();
    key.push(255)?;
    key.push(255)?;
    key.push((number / 256) as u8)?;
    key.push((number % 256) as u8)?;
    Ok(())
}

// A letter or digit with its case folded.
fn letter_of(byte: u8) -> Option<u8>
    ensures { result ≡ letter_of byte }
{
    if byte.is_ascii_alphanumeric() {
        Some(byte.to_ascii_lowercase())
    } else {
        None
    }
}

/// What takes documents apart into occurrences of keys: a buffer for a key.
#[derive(Drop)]
pub struct Walker {
    alloc: Global,
    key: Vec<u8>,
}

impl Walker {
    pub fn vacant(alloc: Global) -> Walker {
        Walker {
            alloc,
            key: Vec::new(alloc),
        }
    }

    fn add_tokens(
        &mut self,
        terms: &mut TermLog,
        kept: bool,
        number: usize,
        document: u32,
        value: usize,
        tokens: &[Token],
    ) -> Result<(), AllocError>
        requires number { number < 2 ^ 16 }
        requires value { value < 2 ^ 32 }
        requires positions { AllByRecursion (λ t. t.position < 2 ^ 32) tokens.now }
        ensures { (s : Schema) → IsKept s number kept → OnOk result (Adds terms.old terms.new s (in_document document (of_tokens number value tokens.now))) }
    {
        let mut rest = tokens;
        while let Some((token, behind)) = rest.split_first() {
            put_key(&mut self.key, number, token.text.as_slice())?;
            let place = place_of(value, token.position);
            terms.add(self.alloc, &self.key, kept, document, place)?;
            rest = behind;
        }
        Ok(())
    }

    // Adds the tokens of a text as its field has them.
    fn add_listed(
        &mut self,
        terms: &mut TermLog,
        field: &Field,
        number: usize,
        document: u32,
        value: usize,
        text: &str,
    ) -> Result<(), AllocError>
        requires number { number < 2 ^ 16 }
        requires value { value < 2 ^ 32 }
        requires short { length text.now < 2 ^ 32 }
        ensures { (s : Schema) → IsKept s number field.now.positions → OnOk result (Adds terms.old terms.new s (in_document document (of_tokens number value (field_tokens field.now text.now)))) }
    {
        let tokens = tokens_of(self.alloc, field, text)?;
        self.add_tokens(
            terms,
            field.positions,
            number,
            document,
            value,
            tokens.as_slice(),
        )
    }

    // Adds a text as one token, if it is not too long.
    fn add_whole(
        &mut self,
        terms: &mut TermLog,
        kept: bool,
        number: usize,
        document: u32,
        value: usize,
        text: &[u8],
    ) -> Result<(), AllocError>
        requires number { number < 2 ^ 16 }
        requires value { value < 2 ^ 32 }
        ensures { (s : Schema) → IsKept s number kept → OnOk result (Adds terms.old terms.new s (in_document document (of_tokens number value (raw_tokens text.now)))) }
    {
        if text.len() > MAX_TOKEN {
            return Ok(());
        }
        put_key(&mut self.key, number, text)?;
        terms.add(self.alloc, &self.key, kept, document, place_of(value, 0))
    }

    // Adds the word in the buffer, if it is not too long.
    fn add_word(
        &self,
        terms: &mut TermLog,
        kept: bool,
        document: u32,
        place: u64,
    ) -> Result<(), AllocError>
        ensures { (s : Schema) (number value position : ℕ) (word : List ℕ) → IsKept s number kept → self.now.key.items ≡ field_key number word → place ≡ value_place value position → (word ≡ [] → ⊥)
            → OnOk result (Adds terms.old terms.new s (in_document document (of_word number value position word))) }
    {
        if self.key.len() > PREFIX + MAX_TOKEN {
            return Ok(());
        }
        terms.add(self.alloc, &self.key, kept, document, place)
    }

    // Takes the word out of the buffer, if there is one, and adds it. It gives the position behind it.
    fn end_word(
        &mut self,
        terms: &mut TermLog,
        kept: bool,
        document: u32,
        value: usize,
        position: usize,
    ) -> Result<usize, AllocError>
        requires value { value < 2 ^ 32 }
        requires position { position < 2 ^ 32 }
        ensures key { (number : ℕ) (word : List ℕ) → self.old.key.items ≡ field_key number word → OnOk result (self.new.key.items ≡ field_key number []) }
        ensures position { (number : ℕ) (word : List ℕ) → self.old.key.items ≡ field_key number word → IfOk result (λ next. next ≡ position_behind position word) }
        ensures added { (s : Schema) (number : ℕ) (word : List ℕ) → IsKept s number kept → self.old.key.items ≡ field_key number word
            → OnOk result (Adds terms.old terms.new s (in_document document (of_word number value position word))) }
    {
        if self.key.len() <= PREFIX {
            return Ok(position);
        }
        self.add_word(terms, kept, document, place_of(value, position))?;
        self.key.truncate(PREFIX);
        Ok(position + 1)
    }

    // Takes a byte behind the word in the buffer. It gives the position of the word that is there then.
    fn take_byte(
        &mut self,
        terms: &mut TermLog,
        kept: bool,
        document: u32,
        value: usize,
        position: usize,
        byte: u8,
    ) -> Result<usize, AllocError>
        requires value { value < 2 ^ 32 }
        requires position { position < 2 ^ 32 }
        ensures key { (number : ℕ) (word : List ℕ) → self.old.key.items ≡ field_key number word → OnOk result (self.new.key.items ≡ field_key number (next_word word byte)) }
        ensures position { (number : ℕ) (word : List ℕ) → self.old.key.items ≡ field_key number word → IfOk result (λ next. next ≡ next_position position word byte) }
        ensures added { (s : Schema) (number : ℕ) (word : List ℕ) → IsKept s number kept → self.old.key.items ≡ field_key number word
            → OnOk result (Adds terms.old terms.new s (in_document document (of_byte number value position word byte))) }
    {
        match letter_of(byte) {
            Some(letter) => {
                self.key.push(letter)?;
                Ok(position)
            }
            None => self.end_word(terms, kept, document, value, position),
        }
    }

    // Adds the words of a text of ASCII.
    fn add_words(
        &mut self,
        terms: &mut TermLog,
        kept: bool,
        number: usize,
        document: u32,
        value: usize,
        text: &[u8],
    ) -> Result<(), AllocError>
        requires number { number < 2 ^ 16 }
        requires value { value < 2 ^ 32 }
        requires short { length text.now < 2 ^ 32 }
        requires ascii { IsAscii text.now }
        ensures { (s : Schema) → IsKept s number kept → OnOk result (Adds terms.old terms.new s (in_document document (of_tokens number value (default_tokens text.now)))) }
    {
        put_key(&mut self.key, number, &[])?;
        let mut position = 0;
        for byte in text {
            position = self.take_byte(terms, kept, document, value, position, *byte)?;
        }
        self.end_word(terms, kept, document, value, position)?;
        Ok(())
    }

    // Adds the words of a text, taken byte by byte where it is of ASCII.
    fn add_default(
        &mut self,
        terms: &mut TermLog,
        field: &Field,
        number: usize,
        document: u32,
        value: usize,
        text: &str,
    ) -> Result<(), AllocError>
        requires number { number < 2 ^ 16 }
        requires value { value < 2 ^ 32 }
        requires short { length text.now < 2 ^ 32 }
        requires tokenizer { field.now.tokenizer ≡ Tokenizer.Default }
        ensures { (s : Schema) → IsKept s number field.now.positions → OnOk result (Adds terms.old terms.new s (in_document document (of_tokens number value (field_tokens field.now text.now)))) }
    {
        if text.is_ascii() {
            let kept = field.positions;
            return self.add_words(terms, kept, number, document, value, text.as_bytes());
        }
        self.add_listed(terms, field, number, document, value, text)
    }

    // Adds the tokens of a text.
    fn add_text(
        &mut self,
        terms: &mut TermLog,
        field: &Field,
        number: usize,
        document: u32,
        value: usize,
        text: &str,
    ) -> Result<(), AllocError>
        requires number { number < 2 ^ 16 }
        requires value { value < 2 ^ 32 }
        requires short { length text.now < 2 ^ 32 }
        ensures { (s : Schema) → IsKept s number field.now.positions → OnOk result (Adds terms.old terms.new s (in_document document (of_tokens number value (field_tokens field.now text.now)))) }
    {
        match field.tokenizer {
            Tokenizer::Raw => {
                let kept = field.positions;
                self.add_whole(terms, kept, number, document, value, text.as_bytes())
            }
            Tokenizer::Default => self.add_default(terms, field, number, document, value, text),
            Tokenizer::Whitespace => self.add_listed(terms, field, number, document, value, text),
        }
    }

    fn add_term(
        &mut self,
        terms: &mut TermLog,
        kept: bool,
        number: usize,
        document: u32,
        place: usize,
        value: &Value,
    ) -> Result<(), AllocError>
        requires number { number < 2 ^ 16 }
        requires place { place < 2 ^ 32 }
        requires other { (text : List ℕ) → value.now ≡ Value.Text text → ⊥ }
        ensures { (s : Schema) (f : Field) → IsKept s number kept → OnOk result (Adds terms.old terms.new s (in_document document (of_value f number place value.now))) }
    {
        put_key(&mut self.key, number, &[])?;
        put_term(&mut self.key, value)?;
        terms.add(self.alloc, &self.key, kept, document, place_of(place, 0))
    }

    fn add_value(
        &mut self,
        terms: &mut TermLog,
        field: &Field,
        number: usize,
        document: u32,
        place: usize,
        value: &Value,
    ) -> Result<(), AllocError>
        requires number { number < 2 ^ 16 }
        requires place { place < 2 ^ 32 }
        requires short { IsShort value.now }
        ensures { (s : Schema) → IsKept s number field.now.positions → OnOk result (Adds terms.old terms.new s (in_document document (of_value field.now number place value.now))) }
    {
        if let Value::Text(text) = value {
            return self.add_text(terms, field, number, document, place, text.as_str());
        }
        self.add_term(terms, field.positions, number, document, place, value)
    }

    fn add_values(
        &mut self,
        terms: &mut TermLog,
        field: &Field,
        number: usize,
        document: u32,
        values: &[Value],
    ) -> Result<(), AllocError>
        requires number { number < 2 ^ 16 }
        requires short { AreShort values.now }
        ensures { (s : Schema) → IsKept s number field.now.positions → OnOk result (Adds terms.old terms.new s (in_document document (of_values field.now number 0 values.now))) }
    {
        let mut place = 0;
        let mut rest = values;
        while let Some((value, behind)) = rest.split_first() {
            self.add_value(terms, field, number, document, place, value)?;
            place += 1;
            rest = behind;
        }
        Ok(())
    }

    fn add_field(
        &mut self,
        terms: &mut TermLog,
        field: &Field,
        number: usize,
        document: u32,
        values: &[Value],
    ) -> Result<(), AllocError>
        requires number { number < 2 ^ 16 }
        requires short { AreShort values.now }
        ensures { (s : Schema) → IsKept s number field.now.positions → keeps_places s (presence_key number) ≡ false
            → OnOk result (Adds terms.old terms.new s (in_document document (of_field field.now number values.now))) }
    {
        if !field.indexed || values.is_empty() {
            return Ok(());
        }
        put_presence(&mut self.key, number)?;
        terms.add(self.alloc, &self.key, false, document, 0)?;
        self.add_values(terms, field, number, document, values)
    }

    /// Adds what a document says. After an `Err` nothing is said of what is held.
    pub fn add_document(
        &mut self,
        terms: &mut TermLog,
        schema: &Schema,
        document: u32,
        doc: &[DocField],
    ) -> Result<(), AllocError>
        requires schema { IsSchema schema.now }
        requires short { IsShortDoc doc.now }
        ensures { OnOk result (Adds terms.old terms.new schema.now (in_document document (keys_of schema.now doc.now))) }
    {
        let mut number = 0;
        let mut rest = schema.fields.as_slice();
        while let Some((field, behind)) = rest.split_first() {
            self.add_field(terms, field, number, document, values_in(doc, number))?;
            number += 1;
            rest = behind;
        }
        Ok(())
    }
}

/// A document's values of a field.
pub(crate) fn values_in(doc: &[DocField], number: usize) -> &[Value]
    ensures { result.now ≡ values_in doc.now number }
{
    for part in doc {
        if part.number == number {
            return part.values.as_slice();
        }
    }
    &[]
}
