//! What a client asks for, as far as a log may have it: no secret and nothing of a contact but its name.

/// Members of a command's JSON object, and of no object in it. What isn't there is empty.
#[derive(Clone, Copy)]
pub(crate) struct Members<'p> {
    pub cmd: &'p [u8],
    pub obj: &'p [u8],
    pub op: &'p [u8],
    /// The name of the object, or the first of the names.
    pub name: &'p [u8],
    /// The registrar's id of a login.
    pub id: &'p [u8],
}

impl<'p> Members<'p> {
    fn none() -> Members<'p> {
        Members {
            cmd: b"",
            obj: b"",
            op: b"",
            name: b"",
            id: b"",
        }
    }

    /// Takes a member whose value is a text.
    fn take(&mut self, key: &[u8], text: &'p [u8]) {
        if is_word(key, b"cmd") {
            self.cmd = text;
        } else if is_word(key, b"obj") {
            self.obj = text;
        } else if is_word(key, b"op") {
            self.op = text;
        } else if is_word(key, b"name") {
            self.name = text;
        } else if is_word(key, b"id") {
            self.id = text;
        }
    }

    /// Takes a text of a list.
    fn take_listed(&mut self, key: &[u8], text: &'p [u8]) {
        if self.name.is_empty() && is_word(key, b"names") {
            self.name = text;
        }
    }
}

/// The members of a payload. Of one that is no JSON object whatever is found, which no line is made of.
pub(crate) fn members_of(payload: &[u8]) -> Members<'_> {
    let mut scan = Scan::new(payload);
    for part in payload.split(|byte| *byte == b'"') {
        scan.step(part);
    }
    scan.members
}

/// The place of a walk over a payload, from quote to quote.
#[derive(Drop)]
struct Scan<'p> {
    payload: &'p [u8],
    members: Members<'p>,
    /// How many objects and lists are open.
    depth: u32,
    /// Where the bytes up to the next quote begin.
    at: usize,
    /// Whether a text is open, and where it began.
    is_in_text: bool,
    start: usize,
    /// The last text of the outermost object, and the one before a colon.
    text: Option<&'p [u8]>,
    key: Option<&'p [u8]>,
}

impl<'p> Scan<'p> {
    fn new(payload: &'p [u8]) -> Scan<'p> {
        Scan {
            payload,
            members: Members::none(),
            depth: 0,
            at: 0,
            is_in_text: false,
            start: 0,
            text: None,
            key: None,
        }
    }

    /// Goes over the bytes up to the next quote, and over it.
    fn step(&mut self, part: &[u8]) {
        let quote = self.at.saturating_add(part.len());
        self.at = quote.saturating_add(1);
        if quote >= self.payload.len() {
            // There is no next quote, so no text ends any more.
            return;
        }
        if !self.is_in_text {
            self.step_outside(part);
            self.is_in_text = true;
            self.start = self.at;
        } else if !escapes_next(part) {
            self.is_in_text = false;
            self.end_text(quote);
        }
    }

    /// Goes over bytes between texts.
    fn step_outside(&mut self, part: &[u8]) {
        for byte in part.iter() {
            match *byte {
                b'{' | b'[' => self.depth = self.depth.saturating_add(1),
                b'}' | b']' => self.depth = self.depth.saturating_sub(1),
                b':' if self.depth == 1 => self.key = self.text,
                b',' if self.depth == 1 => self.key = None,
                _ => {}
            }
        }
    }

    /// Takes the text that ends here.
    fn end_text(&mut self, end: usize) {
        let Some(text) = self.payload.get(self.start..end) else {
            return;
        };
        match self.key {
            Some(key) if self.depth == 1 => self.members.take(key, text),
            Some(key) if self.depth == 2 => self.members.take_listed(key, text),
            Some(_) => {}
            None => self.text = Some(text),
        }
    }
}

/// Whether the byte after these, which a text has, is escaped by their end.
fn escapes_next(part: &[u8]) -> bool {
    let mut is_escaped = false;
    for byte in part.iter().rev() {
        if *byte != b'\\' {
            return is_escaped;
        }
        is_escaped = !is_escaped;
    }
    is_escaped
}

/// Whether a text is this word. Words are short, so byte by byte is the fastest.
pub(crate) fn is_word(text: &[u8], word: &[u8]) -> bool {
    text.len() == word.len()
        && text
            .iter()
            .zip(word.iter())
            .all(|(one, other)| *one == *other)
}

/// The target of a request of HTTP, without the part after a question mark.
pub(crate) fn target_of(head: &[u8]) -> &[u8] {
    let mut words = head.split(|byte| *byte == b' ' || *byte == b'\r' || *byte == b'\n');
    let _method = words.next();
    let target = words.next().unwrap_or(b"");
    let mut parts = target.split(|byte| *byte == b'?');
    parts.next().unwrap_or(b"")
}
