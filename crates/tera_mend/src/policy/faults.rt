//! What is written for each kind of fault.

use crate::edits::Edit;
use crate::lone::LoneTag;
use crate::policy::pairs::{Pairs, paired_tags, pairs_of};
use crate::policy::placeholders::{comment, other_name, placeholder, squeezed, with_word};
use crate::policy::tags::{Tag, Tags, tags_of};
use crate::policy::words::{Body, Role, end_tag, near_words, role_of};
use std::alloc::{AllocError, Global};
use std::ops::Range;

/// A text with its tags, and how they belong together.
#[derive(Drop)]
pub(crate) struct Scene<'t> {
    alloc: Global,
    text: &'t [u8],
    tags: Tags<'t>,
    pairs: Pairs,
}

impl<'t> Scene<'t> {
    /// Of a text whose fault is at this byte.
    pub(crate) fn of(alloc: Global, text: &'t [u8], fault: usize) -> Result<Scene<'t>, AllocError> {
        let tags = tags_of(alloc, text, fault)?;
        let paired = paired_tags(alloc, &tags.all, usize::MAX, None)?;
        let mut pairs = pairs_of(alloc, paired.as_slice(), false)?;
        if pairs.odd() > 0 {
            let by_columns = pairs_of(alloc, paired.as_slice(), true)?;
            if by_columns.odd() <= pairs.odd() {
                pairs = by_columns;
            }
        }
        Ok(Scene {
            alloc,
            text,
            tags,
            pairs,
        })
    }

    /// What is written for the fault with this message.
    pub(crate) fn choice(&self, message: &str, at: &Range<usize>) -> Result<Vec<Edit>, AllocError> {
        let at_end = message.starts_with("Unexpected end of input");
        // Both are at the token that was taken last, which may be the end of a tag that is right.
        if at_end || message.starts_with("Unclosed component") {
            return self.past_token(at, at_end);
        }
        if message.starts_with("This content would be ignored") {
            return self.ignored(at);
        }
        let found = self.opened().or(self.around(at.start));
        let Some(tag) = found.or(self.last_before(at.start)) else {
            return Ok(Vec::new(self.alloc));
        };
        if message.starts_with("The template nesting is too deep") {
            return self.deepest(tag);
        }
        if !tag.closed {
            return self.in_tag(tag);
        }
        if message.starts_with("Unknown tag") || message.starts_with("Closing tag") {
            return match tag.role {
                Role::End(_) | Role::Else | Role::Elif => self.unfit(tag.number),
                Role::Variable => self.alone(tag.number),
                _ => self.unknown(tag),
            };
        }
        if message.starts_with("Template already contains") {
            return self.again(tag.number, at);
        }
        let is_component = message.starts_with("Component definitions cannot");
        if is_component || message.starts_with("Blocks cannot") {
            return self.barred(tag.number);
        }
        self.in_tag(tag)
    }

    // For a fault at the token that was taken last.
    fn past_token(&self, at: &Range<usize>, at_end: bool) -> Result<Vec<Edit>, AllocError> {
        match (self.opened(), self.around(at.start)) {
            (Some(tag), _) if self.tags.endless => self.in_tag(tag),
            (_, Some(tag)) if tag.start == at.start && self.is_unfit(tag, at_end) => {
                self.unfit(tag.number)
            }
            _ => self.ended(at.start),
        }
    }

    fn is_unfit(&self, tag: &Tag<'t>, at_end: bool) -> bool {
        self.pairs.crossed_by(tag.number).is_some() || (!at_end && matches!(tag.role, Role::End(_)))
    }

    // For a fault that is in this tag alone. A head stays a head where it has an end, and where leaving it out leaves
    // no fewer tags odd.
    fn in_tag(&self, tag: &Tag<'t>) -> Result<Vec<Edit>, AllocError> {
        let number = tag.number;
        if tag.role == Role::Unknown {
            return self.unknown(tag);
        }
        if matches!(tag.role, Role::Head(_))
            && (self.pairs.partner_of(number).is_none()
                || self.paired(number, None)?.odd() < self.pairs.odd())
        {
            return self.alone(number);
        }
        match placeholder(self.alloc, tag, tag.role)? {
            Some(edit) => Ok(vec![in self.alloc; edit]?),
            None => self.kept_pair(self.pairs.head_of(number), &self.pairs),
        }
    }

    // A tag whose word is none: with the word near it that leaves the fewest tags odd. Where no word is near, it is a
    // comment, and so is what has `end` before its word.
    fn unknown(&self, tag: &Tag<'t>) -> Result<Vec<Edit>, AllocError> {
        let mut least = self.paired(tag.number, None)?.odd().saturating_add(1);
        let mut best = None;
        for word in near_words(self.alloc, tag.word)? {
            let role = role_of(word.as_bytes(), tag.rest);
            let pairs = self.paired(tag.number, Some(role))?;
            if pairs.odd() < least {
                least = pairs.odd();
                best = Some((word, role, pairs));
            }
        }
        let Some((word, role, pairs)) = best else {
            return self.without_own_end(tag);
        };
        if let Some(edit) = with_word(self.alloc, tag, word)? {
            return Ok(vec![in self.alloc; edit]?);
        }
        match placeholder(self.alloc, tag, role)? {
            Some(edit) => Ok(vec![in self.alloc; edit]?),
            None => self.kept_pair(pairs.head_of(tag.number), &pairs),
        }
    }

    fn without_own_end(&self, tag: &Tag<'t>) -> Result<Vec<Edit>, AllocError> {
        let mut edits = self.alone(tag.number)?;
        let mut deep = 0usize;
        for other in &self.tags.all {
            if other.number <= tag.number || tag.word.is_empty() {
                continue;
            }
            if other.word == tag.word {
                deep = deep.saturating_add(1);
            } else if other.word.strip_prefix(b"end") == Some(tag.word) {
                if deep == 0 {
                    self.push_comment(&mut edits, other.number)?;
                    break;
                }
                deep = deep.saturating_sub(1);
            }
        }
        Ok(edits)
    }

    // For an end or an `else` that does not fit: the innermost head that it shows to have no end, or itself, or what
    // an end before it shows, or an end or `else` before it that belongs to nothing.
    fn unfit(&self, number: usize) -> Result<Vec<Edit>, AllocError> {
        if let Some(head) = self.pairs.crossed_by(number) {
            return self.pair(head, &self.pairs);
        }
        if !self.pairs.stray.as_slice().contains(&number) {
            let mut crossed = self.pairs.crossed.iter().rev();
            if let Some((head, _)) = crossed.find(|pair| pair.1 < number) {
                return self.pair(*head, &self.pairs);
            }
            let mut stray = self.pairs.stray.iter().rev();
            if let Some(stray) = stray.find(|stray| **stray < number) {
                return self.alone(*stray);
            }
        }
        self.alone(number)
    }

    // For the end of the text: a head that an end shows to have none, or else the end of the innermost that is open,
    // after the text, or else an end or `else` that belongs to nothing.
    fn ended(&self, fault: usize) -> Result<Vec<Edit>, AllocError> {
        if let Some((head, _)) = self.pairs.crossed.as_slice().last() {
            return self.pair(*head, &self.pairs);
        }
        if let Some(head) = self.pairs.left.as_slice().last()
            && let Some(tag) = self.tag(*head)
        {
            let mut bytes = Vec::new(self.alloc);
            push_end(&mut bytes, tag)?;
            let at = self.text.len();
            return Ok(vec![in self.alloc; Edit { at, bytes }]?);
        }
        match (self.pairs.stray.as_slice().last(), self.last_before(fault)) {
            (Some(stray), _) => self.alone(*stray),
            (None, Some(tag)) => self.alone(tag.number),
            (None, None) => Ok(Vec::new(self.alloc)),
        }
    }

    // For a block or component whose name is there: another name, also at its end.
    fn again(&self, number: usize, at: &Range<usize>) -> Result<Vec<Edit>, AllocError> {
        let len = at.end.saturating_sub(at.start);
        let Some(edit) = other_name(self.alloc, &self.tags.all, at.start, len)? else {
            return self.pair(number, &self.pairs);
        };
        let mut edits = vec![in self.alloc; edit]?;
        if let Some(end) = self.pairs.partner_of(number)
            && let Some(last) = self.tag(end)
            && !last.name().is_empty()
        {
            match placeholder(self.alloc, last, last.role)? {
                Some(edit) => edits.push(edit)?,
                None => return self.pair(number, &self.pairs),
            }
        }
        Ok(edits)
    }

    // For a definition or a block where none may be: the innermost head around it that has no end, or else itself.
    fn barred(&self, number: usize) -> Result<Vec<Edit>, AllocError> {
        let mut around = number;
        for head in &self.pairs.left {
            if *head < number {
                around = *head;
            }
        }
        for (head, end) in &self.pairs.crossed {
            if *head < number && number < *end {
                around = *head;
            }
        }
        self.pair(around, &self.pairs)
    }

    // For content of a template that extends another: an end before it that is one too many; or the `extends`, if a
    // head of a block seems to be lost; or else itself.
    fn ignored(&self, at: &Range<usize>) -> Result<Vec<Edit>, AllocError> {
        let before = at.start;
        let mut ends = self.tags.all.iter().rev();
        let last = ends.find(|tag| tag.end() <= before && tag.role == Role::End(Body::Block));
        if let Some(last) = last
            && self.paired(last.number, None)?.odd() < self.pairs.odd()
        {
            return self.alone(last.number);
        }
        let mut tops = self.tags.all.iter();
        let top = tops.find(|tag| tag.end() <= before && matches!(tag.word, b"extends"));
        if let Some(top) = top
            && self.has_stray_block_end()
        {
            return self.alone(top.number);
        }
        self.range(at.start, at.end)
    }

    fn has_stray_block_end(&self) -> bool {
        self.pairs.stray.iter().any(|number| {
            matches!(self.tag(*number), Some(tag) if tag.role == Role::End(Body::Block))
        })
    }

    // For too many bodies in one another: all from the head to its end.
    fn deepest(&self, head: &Tag<'t>) -> Result<Vec<Edit>, AllocError> {
        let end = self.pairs.partner_of(head.number).unwrap_or(head.number);
        let last = self.tag(end).unwrap_or(head);
        self.range(head.start, last.end())
    }

    /// The tags after this byte that may be read by themselves.
    pub(crate) fn lone_tags(&self, after: usize) -> Result<Vec<LoneTag>, AllocError> {
        let mut found = Vec::new(self.alloc);
        for tag in &self.tags.all {
            if tag.start > after
                && tag.ends_as_lexed()
                && let Some(closing) = self.closing(tag)
            {
                found.push(LoneTag {
                    start: tag.start,
                    end: tag.end(),
                    closing,
                })?;
            }
        }
        Ok(found)
    }

    // What is to be read after a tag that is read by itself; None where it may not be.
    fn closing(&self, tag: &Tag<'t>) -> Option<&'static str> {
        match tag.role {
            Role::Variable => Some(""),
            Role::Alone if matches!(tag.word, b"include" | b"set" | b"set_global") => Some(""),
            Role::Head(body) if body != Body::Call && self.pairs.partner_of(tag.number).is_some() =>
                { Some(end_tag(body)) }
            _ => None,
        }
    }

    /// Where the fault begins, or the tag in which it is.
    pub(crate) fn start(&self, at: &Range<usize>) -> usize {
        match self.opened().or(self.around(at.start)) {
            Some(tag) => tag.start,
            None => at.start,
        }
    }

    /// The ends of all heads that are open, the innermost first.
    pub(crate) fn ends(&self) -> Result<Vec<u8>, AllocError> {
        let mut bytes = Vec::new(self.alloc);
        for head in self.pairs.left.iter().rev() {
            if let Some(tag) = self.tag(*head) {
                push_end(&mut bytes, tag)?;
            }
        }
        Ok(bytes)
    }

    fn tag(&self, number: usize) -> Option<&Tag<'t>> {
        self.tags.all.as_slice().get(number)
    }

    // The tag in which the byte is.
    fn around(&self, byte: usize) -> Option<&Tag<'t>> {
        let mut tags = self.tags.all.iter();
        tags.find(|tag| tag.start <= byte && byte < tag.end())
    }

    // The tag that the lexer had begun and not ended where the fault is.
    fn opened(&self) -> Option<&Tag<'t>> {
        self.tag(self.tags.opened?)
    }

    // The last tag, except comments and raw pieces, that begins there or before.
    fn last_before(&self, byte: usize) -> Option<&Tag<'t>> {
        let mut tags = self.tags.all.iter().rev();
        tags.find(|tag| tag.start <= byte && !matches!(tag.role, Role::Comment | Role::Raw))
    }

    // The pairs if the tag of this number has another role, or is left out.
    fn paired(&self, number: usize, role: Option<Role>) -> Result<Pairs, AllocError> {
        let tags = paired_tags(self.alloc, &self.tags.all, number, role)?;
        pairs_of(self.alloc, tags.as_slice(), false)
    }

    fn push_comment(&self, edits: &mut Vec<Edit>, number: usize) -> Result<(), AllocError> {
        if let Some(tag) = self.tag(number) {
            edits.push(comment(self.alloc, tag.start, tag.whole)?)?;
        }
        Ok(())
    }

    // The tag as a comment.
    fn alone(&self, number: usize) -> Result<Vec<Edit>, AllocError> {
        let mut edits = Vec::new(self.alloc);
        self.push_comment(&mut edits, number)?;
        Ok(edits)
    }

    // A head, what belongs to it and its end as comments; what is between them stays.
    fn pair(&self, head: usize, pairs: &Pairs) -> Result<Vec<Edit>, AllocError> {
        let mut edits = self.alone(head)?;
        for (of, middle) in &pairs.middles {
            if *of == head {
                self.push_comment(&mut edits, *middle)?;
            }
        }
        if let Some(end) = pairs.partner_of(head) {
            self.push_comment(&mut edits, end)?;
        }
        Ok(edits)
    }

    // A head and its end as those of an `if`, or where there is no room for these as comments.
    fn kept_pair(&self, head: usize, pairs: &Pairs) -> Result<Vec<Edit>, AllocError> {
        if let Some(end) = pairs.partner_of(head)
            && let Some(first) = self.tag(head)
            && let Some(last) = self.tag(end)
            && let Some(first) = squeezed(self.alloc, first, b"if 0")?
            && let Some(last) = squeezed(self.alloc, last, b"endif")?
        {
            let mut edits = vec![in self.alloc; first]?;
            edits.push(last)?;
            return Ok(edits);
        }
        self.pair(head, pairs)
    }

    // A comment in the place of these bytes.
    fn range(&self, start: usize, end: usize) -> Result<Vec<Edit>, AllocError> {
        let old = self.text.get(start..end).unwrap_or(b"");
        Ok(vec![in self.alloc; comment(self.alloc, start, old)?]?)
    }
}

// The end of a head.
fn push_end(to: &mut Vec<u8>, tag: &Tag<'_>) -> Result<(), AllocError> {
    match tag.role {
        Role::Head(Body::Call) => {
            to.extend_from_slice(b"{%</")?;
            to.extend_from_slice(tag.name())?;
            to.extend_from_slice(b">%}")
        }
        Role::Head(body) => to.extend_from_slice(end_tag(body).as_bytes()),
        _ => Ok(()),
    }
}
