use boss_journal::{NextRecord, OpenRefusal};

/// What is expected of bytes that are opened.
#[derive(Clone, Copy, PartialEq, Eq)]
pub enum Expected {
    New,
    Old(u8),
    Refused(OpenRefusal),
}

/// The byte at a place, or a byte that fits nowhere.
fn byte(bytes: &[u8], place: usize) -> u8 {
    bytes.get(place).copied().unwrap_or(170)
}

/// Whether these bytes stand at a place.
fn stand(bytes: &[u8], place: usize, these: &[u8]) -> bool {
    for (i, wanted) in these.iter().enumerate() {
        match bytes.get(place.saturating_add(i)) {
            Some(found) if found == wanted => {}
            _ => return false,
        }
    }
    true
}

/// By the order of the cases: new, no journal, another version, another catalogue.
pub fn expected_start(bytes: &[u8], digest: &[u8; 32]) -> Expected {
    let count = bytes.len();
    let version = byte(bytes, 8);
    let known = version >= 1 && version <= 3;
    let same = stand(bytes, 9, digest);
    if count <= 1 || (count <= 42 && byte(bytes, 0) == 0) {
        return Expected::New;
    }
    if count == 42 && stand(bytes, 1, b"OSSJRNL") && known && same && byte(bytes, 41) == 0 {
        return Expected::New;
    }
    if count < 42 || !stand(bytes, 0, b"BOSSJRNL") {
        return Expected::Refused(OpenRefusal::NotAJournal);
    }
    if !known {
        return Expected::Refused(OpenRefusal::Version { found: version });
    }
    if !same {
        let mut kept = [0; 32];
        for i in 0..32 {
            kept[i] = byte(bytes, 9 + i);
        }
        return Expected::Refused(OpenRefusal::Catalogue {
            kept,
            found: *digest,
        });
    }
    Expected::Old(version)
}

/// What is expected at a gate, and how many bytes the record has where there is one.
pub fn expected_next(bytes: &[u8], gate: usize) -> (NextRecord, usize) {
    let place = gate as u64;
    if byte(bytes, gate) != 1 {
        return (NextRecord::Finish, 0);
    }
    let mut size: usize = 0;
    for i in 1..5 {
        match bytes.get(gate.saturating_add(i)) {
            Some(digit) => size = size.wrapping_mul(256).wrapping_add(*digit as usize),
            None => return (NextRecord::Damaged { place }, 0),
        }
    }
    let next = gate.saturating_add(5).saturating_add(size);
    if size > 65_535 || bytes.get(next).is_none() {
        return (NextRecord::Damaged { place }, 0);
    }
    (NextRecord::Bytes { place }, size)
}
