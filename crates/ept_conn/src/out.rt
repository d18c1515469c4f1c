//! The bytes that are to be sent now.

ghost use Rattle.std.specs.Prelude.{◌≡◌, ◌≤◌, ◌==◌, [], ◌++◌, ◌⊎◌, if◌then◌else◌, true, IsTrue, drop, length, OnOk, OnErr, option_map};
ghost use Rattle.ept_http.specs.AnswerHead.{HasStatus, is_refusal, head_text};
ghost use Rattle.ept_conn.specs.Answers.{refusal, file_answer, chunk, last_chunk};

use ept_http::{HeadKind, response_head};
use ept_point::Memory;
use std::alloc::Global;
use std::marker::Model;

/// The bytes still to be sent. Contracts see only these.
#[derive(Debug, Drop)]
pub struct Out {
    bytes: Vec<u8>,
    sent: usize,
}

impl Model for Out {
    ghost use Rattle.std.specs.Prelude.{ℕ, List, ◌≤◌, drop, length};

    ghost Value = { List ℕ };

    ghost view = { λ o. drop o.sent o.bytes.items };

    ghost invariant = { λ o. o.sent ≤ length o.bytes.items };
}

impl Out {
    /// An output without bytes. It takes no memory.
    pub fn new(alloc: Global) -> Out
        ensures { result ≡ [] }
    {
        Out {
            bytes: Vec::new(alloc),
            sent: 0,
        }
    }

    /// The allocator of the bytes.
    pub fn allocator(&self) -> Global {
        *self.bytes.allocator()
    }

    /// The bytes still to be sent.
    pub fn as_slice(&self) -> &[u8]
        ensures { result.now ≡ self.now }
    {
        &self.bytes[self.sent..]
    }

    /// Whether no bytes are left to be sent.
    pub fn is_empty(&self) -> bool
        ensures { result ≡ (length self.now == 0) }
    {
        self.as_slice().is_empty()
    }

    /// Removes the first `count` bytes, which were sent. Once all bytes are sent, their memory is freed.
    pub fn send(&mut self, count: usize)
        requires { count ≤ length self.old }
        ensures { self.new ≡ drop count self.old }
    {
        self.sent += count;
        if self.sent == self.bytes.len() {
            self.clear();
        }
    }

    /// Removes all bytes, and frees their memory. So a connection that waits keeps no room for the largest response
    /// that it sent.
    pub fn clear(&mut self)
        ensures { self.new ≡ [] }
    {
        self.bytes = Vec::new(self.allocator());
        self.sent = 0;
    }

    /// Appends bytes.
    pub fn put(&mut self, bytes: &[u8]) -> Result<(), Memory>
        ensures ok { OnOk result (self.new ≡ self.old ++ bytes.now) }
        ensures unchanged { OnErr result (self.new ≡ self.old) }
    {
        self.bytes.extend_from_slice(bytes)?;
        Ok(())
    }

    /// Appends the head of a response.
    pub fn put_head(&mut self, kind: &HeadKind) -> Result<(), Memory>
        requires { HasStatus kind.now }
        ensures ok { OnOk result (self.new ≡ self.old ++ head_text kind.now) }
        ensures unchanged { OnErr result (self.new ≡ self.old) }
    {
        let mut head = [0; 256];
        let len = response_head(kind, &mut head);
        self.put(&head[..len])
    }

    /// Appends the response with a file: its head and its content, or status 404 if there is no file. If memory runs
    /// out, a prefix of the response may have been appended.
    pub fn put_file(
        &mut self,
        json: bool,
        last: bool,
        content: &Option<Vec<u8>>,
    ) -> Result<(), Memory>
        ensures { OnOk result (self.new ≡ self.old ++ file_answer json last (option_map (λ bytes. bytes.items) content.now)) }
    {
        let Some(bytes) = content else {
            return self.put_head(&HeadKind::Refusal { status: 404, last });
        };
        let length = bytes.len() as u64;
        self.put_head(&HeadKind::File { json, length, last })?;
        self.put(bytes)
    }

    /// Appends bytes as a chunk (RFC 9112, section 7.1). If memory runs out, a prefix of the chunk may have been
    /// appended.
    pub fn put_chunk(&mut self, bytes: &[u8]) -> Result<(), Memory>
        ensures { OnOk result (self.new ≡ self.old ++ chunk bytes.now) }
    {
        if bytes.is_empty() {
            return Ok(());
        }
        let count = bytes.len();
        let size = format!(in self.allocator(); "{count:x}")?;
        self.put(size.as_bytes())?;
        self.put(b"\r\n")?;
        self.put(bytes)?;
        self.put(b"\r\n")
    }

    /// Appends the head of a query's response and, if no other chunk follows, the chunk that ends the body. If memory
    /// runs out, a prefix of these may have been appended.
    pub fn put_query(&mut self, last: bool, is_empty: bool) -> Result<(), Memory>
        ensures { OnOk result (self.new ≡ self.old ++ (head_text (HeadKind.Query last) ++ (if is_empty then last_chunk else []))) }
    {
        self.put_head(&HeadKind::Query { last })?;
        self.put_end(is_empty)
    }

    /// Appends a chunk and, if it is the last one, the chunk that ends the body. If memory runs out, a prefix of these
    /// may have been appended.
    pub fn put_tile(&mut self, points: &[u8], is_last: bool) -> Result<(), Memory>
        ensures { OnOk result (self.new ≡ self.old ++ (chunk points.now ++ (if is_last then last_chunk else []))) }
    {
        self.put_chunk(points)?;
        self.put_end(is_last)
    }

    // Appends the chunk that ends a body, if the body ends here.
    fn put_end(&mut self, ends: bool) -> Result<(), Memory>
        ensures { OnOk result (self.new ≡ self.old ++ (if ends then last_chunk else [])) }
    {
        if !ends {
            return Ok(());
        }
        self.put(b"0\r\n\r\n")
    }

    /// Replaces the bytes by the head of a refusal, after which the connection ends. If there is no memory for it, no
    /// bytes are left.
    pub fn put_last_word(&mut self, status: u16) -> Result<(), Memory>
        requires { IsTrue (is_refusal status) }
        ensures ok { OnOk result (self.new ≡ refusal status true) }
        ensures none { OnErr result (self.new ≡ []) }
        ensures either { (self.new ≡ []) ⊎ (self.new ≡ refusal status true) }
    {
        self.clear();
        self.put_head(&HeadKind::Refusal { status, last: true })
    }
}
