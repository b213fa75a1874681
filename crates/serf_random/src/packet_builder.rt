//! Builds a packet value by value. Each value is written in its canonical form, or in any other form that MessagePack
//! allows for it.

use crate::rng::Rng;
use crate::value::{Field, LENGTHS, UNSUPPORTED, Value, max_of, width_of, write_canonical};
use std::alloc::{AllocError, Global};

/// Keys that don't occur in any message.
const UNKNOWN_KEYS: [&[u8]; 7] = [
    b"Zone",
    b"Zone",
    b"ltime",
    b"",
    b"Nam",
    b"Names",
    b"a key of more than thirty-one bytes",
];

/// Numbers at the upper ends of the ranges that fields accept, and the numbers just above these ranges.
const BOUNDS: [u64; 9] = [
    0xff,
    0x100,
    0xffff,
    0x1_0000,
    0xffff_ffff,
    0x1_0000_0000,
    0x7fff_ffff_ffff_ffff,
    0x8000_0000_0000_0000,
    u64::MAX,
];

/// Nine nested arrays, which are one level more than a packet may contain.
const DEEP: &[u8] = b"\x91\x91\x91\x91\x91\x91\x91\x91\x90";

/// Sample values of all kinds, none of which contains another value.
const LEAVES: [Value; 8] = [
    Value::Signed(-40),
    Value::Truth(true),
    Value::Nil,
    Value::Items(0),
    Value::Pairs(0),
    Value::Text(b"v1"),
    Value::Text(b""),
    Value::Number(7),
];

/// A packet that is being built.
#[derive(Drop)]
pub(crate) struct PacketBuilder {
    alloc: Global,
    rng: Rng,
    /// Whether the form of each value is random rather than canonical.
    has_random_forms: bool,
    /// The packet's bytes so far.
    out: Vec<u8>,
    /// How many more values, or beginnings of values, are written before an error, or `None` if the packet gets no more
    /// errors.
    parts_before_error: Option<u64>,
    /// The length in bytes to which the finished packet is cut, or `None` if it isn't cut.
    cut_length: Option<usize>,
}

impl PacketBuilder {
    /// Begins a packet whose values will have their canonical forms. The new packet consists only of its type byte.
    pub(crate) fn canonical(alloc: Global, type_byte: u8) -> Result<PacketBuilder, AllocError> {
        Ok(PacketBuilder {
            alloc,
            rng: Rng::new(0),
            has_random_forms: false,
            out: Vec::from_slice(alloc, &[type_byte])?,
            parts_before_error: None,
            cut_length: None,
        })
    }

    /// Begins a packet in which `seed` determines the form of each value. If `parts_before_error` is a number, the
    /// packet gets an error after that many values.
    pub(crate) fn free(
        alloc: Global,
        type_byte: u8,
        seed: u64,
        parts_before_error: Option<u64>,
    ) -> Result<PacketBuilder, AllocError> {
        Ok(PacketBuilder {
            rng: Rng::new(seed),
            has_random_forms: true,
            parts_before_error,
            ..PacketBuilder::canonical(alloc, type_byte)?
        })
    }

    /// Returns the bytes of the finished packet. If the packet's error is a cut, this function makes the cut. If the
    /// packet has random forms but no cut, the function appends an additional byte to it one time in 24.
    pub(crate) fn finish(self) -> Result<Vec<u8>, AllocError> {
        let mut packet_builder = self;
        if let Some(length) = packet_builder.cut_length {
            packet_builder.out.truncate(length);
        } else if packet_builder.one_in(24) {
            let byte = packet_builder.rng.below(256) as u8;
            packet_builder.out.push(byte)?;
        }
        let PacketBuilder { out, .. } = packet_builder;
        Ok(out)
    }

    /// Returns true at random, one time in `bound`. For a canonical packet, the result is always false.
    fn one_in(&mut self, bound: u64) -> bool {
        self.has_random_forms && self.rng.one_in(bound)
    }

    /// Appends `head`, followed by as many of the last bytes of `number` as `head` requires.
    fn write_wide(&mut self, head: u8, number: u64) -> Result<(), AllocError> {
        let bytes = number.to_be_bytes();
        self.out.push(head)?;
        self.out
            .extend_from_slice(&bytes[8usize.saturating_sub(width_of(head))..])
    }

    /// Chooses a wide form for `value` at random. If this form has room for the value, the function appends the value,
    /// or its beginning, in this form one time in two. Returns whether the function appended anything.
    fn write_wide_form(&mut self, value: Value) -> Result<bool, AllocError> {
        let Some((heads, size, bits)) = value.wide_forms() else {
            return Ok(false);
        };
        let head = self.rng.pick(heads, 0xcf);
        if self.rng.one_in(2) || size > max_of(head) {
            return Ok(false);
        }
        self.write_wide(head, bits)?;
        if let Value::Text(text) | Value::Key(text) = value {
            self.out.extend_from_slice(text)?;
        }
        Ok(true)
    }

    /// If the packet's error is due, appends the error in place of the next value and returns true. If no error is due
    /// yet, counts the next value and returns false.
    fn write_error_if_due(&mut self) -> Result<bool, AllocError> {
        match self.parts_before_error {
            None => Ok(false),
            Some(0) => {
                self.parts_before_error = None;
                self.write_error()?;
                Ok(true)
            }
            Some(parts) => {
                self.parts_before_error = Some(parts.saturating_sub(1));
                Ok(false)
            }
        }
    }

    /// Appends something that is an error in most places: a number that will be cut off, a byte that doesn't occur in
    /// any message, a length with too few bytes after it, arrays that are nested too deeply, or a value that has the
    /// wrong kind or is out of range.
    fn write_error(&mut self) -> Result<(), AllocError> {
        let value = match self.rng.below(12) {
            0 | 1 => return self.cut_off(),
            2 => {
                let byte = self.rng.pick(&UNSUPPORTED, 0xc1);
                self.out.push(byte)?;
                return Ok(());
            }
            3 => {
                let head = self.rng.pick(&LENGTHS, 0xda);
                return self.write_wide(head, max_of(head));
            }
            4 => return self.out.extend_from_slice(DEEP),
            5 => Value::Nil,
            6 => Value::Truth(true),
            7 => Value::Signed(-1),
            8 | 9 => Value::Number(self.rng.pick(&BOUNDS, 0)),
            10 => Value::Pairs(0),
            _ => Value::Text(b"text"),
        };
        write_canonical(&mut self.out, value)
    }

    /// Appends a number of 9 bytes, and plans that the finished packet is cut off somewhere within this number.
    fn cut_off(&mut self) -> Result<(), AllocError> {
        let more = self.rng.below(9) as usize;
        self.cut_length = Some(self.out.len().saturating_add(more));
        self.write_wide(0xcf, u64::MAX)
    }

    /// Appends `value`, or its beginning. From time to time, appends nil in place of a value that is 0, false or empty.
    /// If the packet's error is due, appends the error in place of the value.
    pub(crate) fn put(&mut self, value: Value) -> Result<(), AllocError> {
        if self.write_error_if_due()? {
            return Ok(());
        }
        if value.may_be_nil() && self.one_in(6) {
            return write_canonical(&mut self.out, Value::Nil);
        }
        if self.has_random_forms && self.write_wide_form(value)? {
            return Ok(());
        }
        write_canonical(&mut self.out, value)
    }

    /// Appends a field, which consists of `key` and `value`. If the value is an array of texts, appends all the texts
    /// in it as well.
    pub(crate) fn write_field(&mut self, key: &[u8], value: Value) -> Result<(), AllocError> {
        self.put(Value::Key(key))?;
        self.put(value)?;
        if let Value::Texts(texts) = value {
            for text in texts {
                self.put(Value::Text(text.as_slice()))?;
            }
        }
        Ok(())
    }

    /// Appends one of the [`LEAVES`], which are values that contain no other values.
    fn write_leaf(&mut self) -> Result<(), AllocError> {
        let leaf = self.rng.pick(&LEAVES, Value::Nil);
        self.put(leaf)
    }

    /// Appends a value that consists of arrays and maps nested `levels` levels deep. Each nested value is an item of an
    /// array, or a key or a value in a map.
    fn write_nested(&mut self, levels: u64) -> Result<(), AllocError> {
        let mut leaves_to_come: u64 = 0;
        for _level in 0..levels {
            match self.rng.below(4) {
                0 => {
                    self.put(Value::Pairs(1))?;
                    self.write_leaf()?;
                }
                1 => {
                    self.put(Value::Pairs(1))?;
                    leaves_to_come = leaves_to_come.saturating_add(1);
                }
                2 => {
                    self.put(Value::Items(2))?;
                    leaves_to_come = leaves_to_come.saturating_add(1);
                }
                _ => self.put(Value::Items(1))?,
            }
        }
        for _leaf in 0..leaves_to_come.saturating_add(1) {
            self.write_leaf()?;
        }
        Ok(())
    }

    /// Appends a key that doesn't occur in any message, followed by a value. The key and the value are inside `depth`
    /// levels of arrays and maps. The value has at most two levels, or it is nested so deeply that the packet reaches
    /// the maximum number of levels, or one level more or fewer.
    pub(crate) fn write_unknown(&mut self, depth: u64) -> Result<(), AllocError> {
        let key = self.rng.pick(&UNKNOWN_KEYS, b"Zone");
        self.put(Value::Key(key))?;
        let levels: u64 = self.rng.pick(&[0, 0, 1, 2, 7, 8, 8, 9], 0);
        self.write_nested(levels.saturating_sub(depth))
    }

    /// Returns the order in which the `count` fields of a map are written. The fields are numbered from 0, and the
    /// number `count` represents a key that doesn't occur in any message. If the packet's forms are random, one field
    /// in 10 follows an unknown key, one field in 24 is left out, and one map in 16 contains a field twice.
    fn order(&mut self, count: u64) -> Result<Vec<u64>, AllocError> {
        let mut order = Vec::new(self.alloc);
        let first = if self.has_random_forms {
            self.rng.below(count)
        } else {
            0
        };
        for place in 0..count {
            if self.one_in(10) {
                order.push(count)?;
            }
            if self.one_in(24) {
                continue;
            }
            order.push(first.saturating_add(place) % count)?;
        }
        if self.one_in(16) {
            order.push(first)?;
        }
        Ok(order)
    }

    /// Appends the beginning of a map with `count` fields, and returns the order of these fields
    /// ([`PacketBuilder::order`]).
    pub(crate) fn write_head(&mut self, count: u64) -> Result<Vec<u64>, AllocError> {
        let order = self.order(count)?;
        self.put(Value::Pairs(order.len() as u64))?;
        Ok(order)
    }

    /// Appends a map of the fields in `fields`, in an order that [`PacketBuilder::order`] chooses. The pairs of this
    /// map are inside `depth` levels of arrays and maps.
    pub(crate) fn write_map(&mut self, fields: &[Field], depth: u64) -> Result<(), AllocError> {
        let order = self.write_head(fields.len() as u64)?;
        for number in &order {
            match fields.get(*number as usize) {
                Some((key, value)) => self.write_field(key, *value)?,
                None => self.write_unknown(depth)?,
            }
        }
        Ok(())
    }
}
