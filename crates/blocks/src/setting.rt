//! What a join is handed: the records of a cut, whole or in part, with other bytes or another length in some places.
use arrayvec::ArrayVec;

#[derive(Drop)]
pub(crate) struct Setting {
    pub(crate) wanted: u64,
    pub(crate) check: ArrayVec<u8, 162>,
    // Room for a fifth.
    pub(crate) records: ArrayVec<u8, 105>,
    // How many bytes of the output are lent.
    pub(crate) output: usize,
}

impl Setting {
    // All four records of block 01 to 06, number 7, any m of which are enough.
    pub(crate) fn cut(m: u32, check_length: usize) -> Setting {
        let mut check = ArrayVec::from([0; 162]);
        check.truncate(check_length);
        let mut records = [0; 84];
        // Refused with another check_length: the records are then zero bytes.
        let _ = cut::cut(
            m,
            4,
            256,
            7,
            &[1, 2, 3, 4, 5, 6],
            &mut records,
            check.as_mut_slice(),
        );
        Setting {
            wanted: 7,
            check,
            records: room(&records),
            output: 6,
        }
    }

    pub(crate) fn wanting(mut self, number: u64) -> Setting {
        self.wanted = number;
        self
    }

    pub(crate) fn with_check_of(mut self, length: usize) -> Setting {
        self.check.truncate(length);
        self
    }

    // Bytes `from` to `to` of the records.
    pub(crate) fn with_part(mut self, from: usize, to: usize) -> Setting {
        self.records.truncate(to);
        let part = room(self.records.as_slice().get(from..).unwrap_or_default());
        self.records = part;
        self
    }

    // A fifth record, of zero bytes.
    pub(crate) fn with_fifth(mut self) -> Setting {
        let _ = self.records.try_extend_from_slice(&[0; 21]);
        self
    }

    pub(crate) fn with_output_of(mut self, length: usize) -> Setting {
        self.output = length;
        self
    }

    pub(crate) fn with_check(mut self, at: usize, bytes: &[u8]) -> Setting {
        put(self.check.as_mut_slice(), at, bytes);
        self
    }

    pub(crate) fn with_records(mut self, at: usize, bytes: &[u8]) -> Setting {
        put(self.records.as_mut_slice(), at, bytes);
        self
    }
}

fn room(records: &[u8]) -> ArrayVec<u8, 105> {
    ArrayVec::try_from(records).unwrap_or_default()
}

// Other bytes from a place on, where they fit. The like in `verdicts` is of another program: a library of these lines is no plainer.
fn put(bytes: &mut [u8], at: usize, others: &[u8]) {
    if let Some(rest) = bytes.get_mut(at..) {
        record::put(rest, others);
    }
}
