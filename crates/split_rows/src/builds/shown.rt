//! What is shown of a split.

use doc_value::{FieldTags, Tags};
use split_build::BuiltSplit;
use split_bundle::Footer;
use split_states::RowFacts;
use std::alloc::{AllocError, Global};

/// Bytes in digits.
pub fn digits(alloc: Global, bytes: &[u8]) -> Result<String, AllocError> {
    let mut out = String::new(alloc);
    for byte in bytes {
        let two = format!(in alloc; "{byte:02x}")?;
        out.push_str(two.as_str())?;
    }
    Ok(out)
}

// A tag field's number and its terms in digits.
fn put_tags(out: &mut String, alloc: Global, field: &FieldTags) -> Result<(), AllocError> {
    let number = field.number;
    out.push_str(format!(in alloc; " {number}:")?.as_str())?;
    match &field.tags {
        Tags::Many => out.push_str("many")?,
        Tags::Listed(terms) => {
            for i in 0..terms.len() {
                if i > 0 {
                    out.push_str(",")?;
                }
                let term = digits(alloc, terms.at(i).as_slice())?;
                out.push_str(term.as_str())?;
            }
        }
    }
    Ok(())
}

/// Facts without size and digest.
pub fn facts(alloc: Global, facts: &RowFacts) -> Result<String, AllocError> {
    let (docs, rejected, weight) = (facts.docs, facts.rejected, facts.weight);
    let mut out = format!(in alloc; "docs {docs} rejected {rejected} weight {weight} times ")?;
    match facts.times {
        None => out.push_str("none")?,
        Some(times) => {
            let (least, greatest) = (times.least, times.greatest);
            out.push_str(format!(in alloc; "{least}..{greatest}")?.as_str())?;
        }
    }
    out.push_str(" tags")?;
    for i in 0..facts.tags.len() {
        put_tags(&mut out, alloc, facts.tags.at(i))?;
    }
    Ok(out)
}

/// The file, its size and its digest.
pub fn file(alloc: Global, split: &BuiltSplit) -> Result<String, AllocError> {
    let bytes = digits(alloc, split.bytes.as_slice())?;
    let digest = digits(alloc, &split.facts.digest)?;
    let size = split.facts.size;
    format!(in alloc; "{size} {digest} {bytes}")
}

/// The section of postings.
pub fn postings(alloc: Global, split: &BuiltSplit) -> Result<String, AllocError> {
    let file = split.bytes.as_slice();
    let Ok(footer) = Footer::read(alloc, file, file.len() as u64) else {
        return String::from_str(alloc, "no footer");
    };
    let sections = footer.sections();
    let from = sections
        .documents
        .saturating_add(sections.dictionary)
        .saturating_add(4);
    let to = from.saturating_add(sections.postings);
    match file.get(from as usize..to as usize) {
        Some(piece) => digits(alloc, piece),
        None => String::from_str(alloc, "no postings"),
    }
}
