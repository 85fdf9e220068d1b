//! A row: its lines, the lines of its scene, and what stands in its hole.

use crate::expand::{Texts, cut, expand, fill};
use crate::text::Text;

/// A row with the named texts.
#[derive(Clone, Copy)]
pub struct Row<'a> {
    pub texts: &'a Texts,
    /// The lines of the scene before it.
    pub scene: &'a [&'a [u8]],
    /// Its own lines.
    pub own: &'a [&'a [u8]],
    /// What stands in place of `\?` in each of these lines.
    pub hole: &'a [u8],
}

/// What stands before the first `:` of a line, and what stands behind it and one blank.
pub fn head_and_body<'a>(line: &'a [u8]) -> (&'a [u8], &'a [u8]) {
    let (head, body) = cut(line, b":");
    (head, body.strip_prefix(b" ").unwrap_or(body))
}

/// Whether one of these lines begins with a key.
pub fn has_key(lines: &[&[u8]], key: &[u8]) -> bool {
    for line in lines {
        if line.starts_with(key) {
            return true;
        }
    }
    false
}

impl<'a> Row<'a> {
    /// The lines to look at for a key: its own where one of them begins with it, and else those of the scene.
    pub fn lines(&self, key: &[u8]) -> &'a [&'a [u8]] {
        if has_key(self.own, key) {
            self.own
        } else {
            self.scene
        }
    }

    /// Writes what a piece of a line stands for in this row.
    pub fn put(&self, raw: &[u8], out: &mut Text) {
        let mut filled = Text::new(self.texts.alloc());
        fill(raw, self.hole, &mut filled);
        expand(self.texts, filled.bytes(), out);
        out.refuse_as(&filled);
    }

    /// What a piece of a line stands for in this row.
    pub fn text(&self, raw: &[u8]) -> Text {
        let mut out = Text::new(self.texts.alloc());
        self.put(raw, &mut out);
        out
    }

    /// Writes the body of the first line that begins with a key over another text; false where there is none.
    pub fn put_first(&self, key: &[u8], over: &mut Text) -> bool {
        for line in self.lines(key) {
            if line.starts_with(key) {
                let (_, body) = head_and_body(line);
                over.clear();
                self.put(body, over);
                return true;
            }
        }
        false
    }

    /// Writes what the own lines stand for that begin with `|`, each with a line feed, without one blank before it.
    pub fn put_text_lines(&self, out: &mut Text) {
        for line in self.own {
            if let Some(body) = line.strip_prefix(b"|") {
                self.put(body.strip_prefix(b" ").unwrap_or(body), out);
                out.put(b"\n");
            }
        }
    }

    /// Writes what the own lines stand for that begin with `=`, each with a line feed, without the blanks before it.
    pub fn put_value_lines(&self, out: &mut Text) {
        for line in self.own {
            if let Some(body) = line.strip_prefix(b"=") {
                self.put(body.trim_ascii_start(), out);
                out.put(b"\n");
            }
        }
    }
}
