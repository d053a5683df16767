// Numbers, words and bytes of a vector file (`tools/model/vectors.py` says how they are written). Whatever stands in a file has a
// reading: past its end are zeros.

// A file that is read from its start on, and how far it was read.
#[derive(Drop)]
pub struct Reader<'a> {
    file: &'a [u8],
    at: usize,
}

impl<'a> Reader<'a> {
    pub fn new(file: &'a [u8]) -> Reader<'a> {
        Reader { file, at: 0 }
    }

    // Whether the file was read up to its end, and not beyond it.
    pub fn at_end(&self) -> bool {
        self.at == self.file.len()
    }

    fn byte(&mut self) -> u8 {
        let byte = self.file.get(self.at).copied().unwrap_or(0);
        self.at = self.at.saturating_add(1);
        byte
    }

    // "A number below 248 is one byte; otherwise a byte 247 + k stands before its k bytes, the highest first."
    pub fn number(&mut self) -> u64 {
        let first = self.byte();
        if first < 248 {
            return u64::from(first);
        }
        let mut value: u64 = 0;
        for _ in 247..first {
            value = (value << 8) | u64::from(self.byte());
        }
        value
    }

    // The next N numbers.
    pub fn numbers<const N: usize>(&mut self) -> [u64; N] {
        let mut values = [0u64; N];
        for value in values.iter_mut() {
            *value = self.number();
        }
        values
    }

    // The next N numbers as words.
    pub fn record<const N: usize>(&mut self) -> [u32; N] {
        let mut words = [0u32; N];
        for word in words.iter_mut() {
            *word = narrowed(self.number());
        }
        words
    }

    // "words: count, then each word". The part of the area that they are in.
    pub fn words<'b>(&mut self, area: &'b mut [u32]) -> &'b [u32] {
        let count = self.number() as usize;
        for k in 0..count {
            let word = narrowed(self.number());
            if let Some(place) = area.get_mut(k) {
                *place = word;
            }
        }
        first(area, count)
    }

    // "bytes: count of parts; for each part: times, length, and the bytes themselves (a part stands `times` times)". How many they are.
    pub fn bytes(&mut self, area: &mut [u8]) -> usize {
        let mut total: usize = 0;
        for _ in 0..self.number() {
            let times = self.number() as usize;
            let length = self.number() as usize;
            let end = total.saturating_add(product(times, length));
            let room_end = end.min(area.len());
            if total < room_end {
                self.fill_with_part(length, &mut area[total..room_end]);
            }
            self.at = self.at.saturating_add(length);
            total = end;
        }
        total
    }

    // The same as the part of the area that they are in.
    pub fn part_of<'b>(&mut self, area: &'b mut [u8]) -> &'b [u8] {
        let length = self.bytes(area);
        first(area, length)
    }

    // A part of a length, again and again until there is no more room; of a part without a length its first byte. What the file lacks of it
    // is zero.
    fn fill_with_part(&self, length: usize, room: &mut [u8]) {
        let left = self.file.get(self.at..).unwrap_or(&[]);
        let length = length.max(1);
        let part = first(left, length);
        room.fill(0);
        for place in room.chunks_mut(length) {
            put(place, 0, part);
        }
    }
}

// No file and no area is so long.
const FAR: usize = 1000000;

// A product, and no product of what is so far.
pub(crate) fn product(a: usize, b: usize) -> usize {
    if a < FAR && b < FAR { a * b } else { FAR }
}

// Writes from a place on what there is room for.
pub fn put<T: Copy>(area: &mut [T], at: usize, values: &[T]) {
    if let Some(room) = area.get_mut(at..) {
        for (place, value) in room.iter_mut().zip(values) {
            *place = *value;
        }
    }
}

// The first n bytes or words, all where there are fewer.
pub fn first<T>(area: &[T], n: usize) -> &[T] {
    area.get(..n).unwrap_or(area)
}

// A number as a narrower one; what does not fit was never written.
pub fn narrowed<T: TryFrom<u64> + Default + Drop>(value: u64) -> T
where
    <T as TryFrom<u64>>::Error: Drop,
{
    T::try_from(value).unwrap_or_default()
}

// "2n, or as 2(-n - 1) + 1 where n is below zero"
pub fn signed(value: u64) -> i64 {
    let magnitude = (value / 2) as i64;
    if value % 2 == 0 {
        return magnitude;
    }
    !magnitude
}

// Every byte of an area has a filling that tells it from its neighbours. Beside `fill` for words: std has no bound on sums that wrap, by
// which one function would serve both.
pub fn fill_bytes(area: &mut [u8]) {
    let mut byte: u8 = 165;
    for place in area.iter_mut() {
        *place = byte;
        byte = byte.wrapping_add(1);
    }
}
