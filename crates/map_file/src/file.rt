// A map that is read in place from the bytes of a map file.
ghost use Rattle.std.specs.Prelude.{◌≡◌, ◌+◌, ◌<◌, ◌≤◌, is_ok, Decides, IfOk};
ghost use Rattle.std.specs.Result.{result_err};
ghost use Rattle.map_file.specs.Format.{Encoded};
ghost use Rattle.map_file.specs.Reading.{fault_of, file, MeansStated};
ghost use Rattle.map_file.specs.Sound.{Readable, Readable-prop};
ghost use Rattle.map_file.specs.Files.{file_lawful};

use crate::reading::Sheet;
use streets::arc::Arc;
use streets::map::Map;
use streets::refusal::Refusal;

// It keeps no copy: each question reads the pairs and records where they lie.
#[derive(Clone, Copy)]
pub struct FileMap<'a> {
    sheet: Sheet<'a>,
    ghost readable: { Readable sheet.bytes.now } by { Readable-prop sheet.bytes.now },
}

impl<'a> FileMap<'a> {
    // Over the bytes of a file it means the lists that the file states; any others are refused by the first check that fails.
    pub fn open(bytes: &'a [u8]) -> Result<FileMap<'a>, Refusal>
        ensures encoded { Decides (is_ok result) (Encoded bytes.now) }
        ensures fault { result_err result ≡ fault_of bytes.now }
        ensures means { IfOk result (λ map. MeansStated bytes.now (file map.sheet.bytes.now)) }
        ensures bytes { IfOk result (λ map. map.sheet.bytes.now ≡ bytes.now) }
    {
        let sheet = Sheet::open(bytes)?;
        sheet.check()?;
        Ok(FileMap { sheet })
    }

    // Over the bytes of a file it means the lists that the file states; over any others it has no points.
    pub fn new(bytes: &'a [u8]) -> FileMap<'a>
        ensures means { MeansStated bytes.now (file result.sheet.bytes.now) }
        ensures refused { (Encoded bytes.now → ⊥) → (file result.sheet.bytes.now).points ≡ 0 }
    {
        FileMap::open(bytes).unwrap_or(FileMap {
            sheet: Sheet::empty(),
        })
    }
}

impl Map for FileMap<'_> {
    ghost view = { λ f. file f.sheet.bytes.now };

    ghost lawful = { λ f. file_lawful f.sheet.bytes.now f.readable };

    fn points(&self) -> usize {
        self.sheet.points()
    }

    fn slots(&self, point: usize) -> usize {
        if point < self.points() {
            usize::from(self.sheet.pair_at(point).many)
        } else {
            0
        }
    }

    fn slot(&self, point: usize, index: usize) -> Option<Arc> {
        if point >= self.points() {
            return None;
        }
        let pair = self.sheet.pair_at(point);
        if index >= usize::from(pair.many) {
            return None;
        }
        Some(self.sheet.arc_at(usize::from(pair.offset) + index))
    }
}
