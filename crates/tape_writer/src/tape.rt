//! Writes items, sections and volumes, and counts their sizes.

ghost use Rattle.std.specs.Prelude.{◌≡◌, ◌≢◌, ◌<◌, ◌≤◌, ◌+◌, ◌++◌, ◌∷◌, ◌⊎◌, [], List, length};
ghost use Rattle.std.specs.{Prelude.OnOk, Prelude.IfErr, Prelude.false, List.AllByRecursion};
ghost use Rattle.tape_image.specs.Tape.{TapeItem, IsTapeItem, block as block_item};
ghost use Rattle.tape_image.specs.{Begins.image_limit, Tape.mark as mark_item};
ghost use Rattle.tape_label.specs.{Kinds.IsSecond, declared.values.Vol1.Vol1, Widths.IsWideVolume};
ghost use Rattle.tape_blocks.specs.Tight.{Filled};
ghost use Rattle.tape_set.specs.{Sizes.item_size, Tight.takes_next};
ghost use Rattle.tape_writer.specs.Tapes.{Tapes, Ended, UnderWay, Takes, Keeps, Changes};
ghost use Rattle.tape_writer.specs.Labels.{IsReady, header_items, trailer_items, volume_label};
ghost use Rattle.tape_writer.specs.Labels.{second_label};
ghost use Rattle.tape_writer.specs.{Tapes.all_volumes, Front.HoldsFront, Draft.IsRoomy};
ghost use Rattle.tape_writer.specs.Lasting.{TapeLasts, LastsFirst, StaysAsked};
ghost use Rattle.tape_writer.specs.{Draft.changed_course, Inside.HasPlace, Inside.IfOpen};
ghost use Rattle.tape_writer.specs.Faults.{FailsWith, IsEnding, IsOfOut};

use crate::course::{Course, Opened};
use crate::fault::{WriteFault, fault_of};
use crate::out::TapeOut;
use tape_label::{Head2, Kind, Trail1, Vol1, write_head1, write_head2, write_trail1, write_vol1};
use tape_set::label_count;

/// The output, and the writer's position on it.
#[derive(Drop)]
pub struct Tape<T> {
    pub(crate) out: T,
    pub(crate) course: Course,
}

impl<T: TapeOut> Tape<T> {
    /// Writes a block: a label or data.
    pub(crate) fn block(&mut self, bytes: &[u8]) -> Result<(), WriteFault>
        requires sized { IsTapeItem (block_item bytes.now) }
        requires room { self.old.course.used + item_size (block_item bytes.now) ≤ image_limit }
        ensures ok { Takes (block_item bytes.now ∷ [])
            (T.holds self.old.out) result (T.holds self.new.out) }
        ensures err { Keeps (T.holds self.old.out) result (T.holds self.new.out) }
        ensures course { OnOk result (self.new.course ≡ record self.old.course {
          used = self.old.course.used + item_size (block_item bytes.now);
        }) }
        ensures lasting { TapeLasts T.TapeOut self.old self.new }
        ensures cause { FailsWith (T.failures self.old.out) result (T.failures self.new.out) }
        ensures asked { (v : Vol1) → T.asked self.old.out v → T.asked self.new.out v }
        ensures out { IfErr result IsOfOut }
    {
        if let Err(fault) = self.out.block(bytes) {
            return Err(fault_of(fault));
        }
        self.course.used += (8 + bytes.len() + bytes.len() % 2) as u32;
        Ok(())
    }

    /// Writes a tape mark.
    pub(crate) fn mark(&mut self) -> Result<(), WriteFault>
        requires room { self.old.course.used + 4 ≤ image_limit }
        ensures ok { Takes (mark_item ∷ []) (T.holds self.old.out) result (T.holds self.new.out) }
        ensures err { Keeps (T.holds self.old.out) result (T.holds self.new.out) }
        ensures course { OnOk result (self.new.course
            ≡ record self.old.course { used = self.old.course.used + 4 }) }
        ensures lasting { TapeLasts T.TapeOut self.old self.new }
        ensures cause { FailsWith (T.failures self.old.out) result (T.failures self.new.out) }
        ensures asked { (v : Vol1) → T.asked self.old.out v → T.asked self.new.out v }
        ensures out { IfErr result IsOfOut }
    {
        if let Err(fault) = self.out.mark() {
            return Err(fault_of(fault));
        }
        self.course.used += 4;
        Ok(())
    }

    /// Writes the headers of section number `sect`: HDR1, HDR2 and a mark.
    #[tactic(auto, using(crate::proofs::Last::kept), unfolding(crate::specs::Labels::first_label))]
    pub(crate) fn begin_section(&mut self, file: &Opened, sect: u16) -> Result<(), WriteFault>
        requires ready { IsReady file.now }
        requires first { 1 ≤ sect }
        requires most { sect ≤ 9999 }
        requires room { self.old.course.used + 180 ≤ image_limit }
        ensures ok { Takes (header_items file.now sect)
            (T.holds self.old.out) result (T.holds self.new.out) }
        ensures front { (volumes : List (List TapeItem)) (items : List TapeItem)
            → T.holds self.old.out (UnderWay volumes items)
            → HoldsFront (T.holds self.new.out) (UnderWay volumes (items
            ++ header_items file.now sect)) }
        ensures course { OnOk result (self.new.course ≡ record {
          volume = self.old.course.volume;
          sect = sect;
          count = 0;
          used = self.old.course.used + 180;
        }) }
        ensures lasting { TapeLasts T.TapeOut self.old self.new }
        ensures cause { FailsWith (T.failures self.old.out) result (T.failures self.new.out) }
        ensures asked { (v : Vol1) → T.asked self.old.out v → T.asked self.new.out v }
        ensures out { IfErr result IsOfOut }
    {
        self.block(&write_head1(&file.head_at(sect)))?;
        self.block(&second_label(file, Kind::Hdr2))?;
        self.mark()?;
        self.course.sect = sect;
        self.course.count = 0;
        Ok(())
    }

    /// Ends the section, and the file if `eof` is true: writes a mark, two labels and a mark.
    #[tactic(auto, using(crate::proofs::Last::lasting_then, crate::proofs::Last::rose_from))]
    pub(crate) fn end_section(&mut self, file: &Opened, eof: bool) -> Result<(), WriteFault>
        requires ready { IsReady file.now }
        requires first { 1 ≤ self.old.course.sect }
        requires most { self.old.course.sect ≤ 9999 }
        requires room { self.old.course.used + 184 ≤ image_limit }
        ensures ok { Takes
            (trailer_items file.now self.old.course.sect self.old.course.count eof)
            (T.holds self.old.out) result (T.holds self.new.out) }
        ensures front { (volumes : List (List TapeItem)) (items : List TapeItem)
            → T.holds self.old.out (UnderWay volumes items)
            → HoldsFront (T.holds self.new.out) (UnderWay volumes (items
            ++ trailer_items file.now self.old.course.sect self.old.course.count eof)) }
        ensures course { OnOk result (self.new.course
            ≡ record self.old.course { used = self.old.course.used + 184 }) }
        ensures lasting { TapeLasts T.TapeOut self.old self.new }
        ensures cause { FailsWith (T.failures self.old.out) result (T.failures self.new.out) }
        ensures asked { (v : Vol1) → T.asked self.old.out v → T.asked self.new.out v }
        ensures out { IfErr result IsOfOut }
    {
        self.mark()?;
        let trailer = Trail1 {
            eof,
            head: file.head_at(self.course.sect),
            blocks: label_count(self.course.count),
        };
        self.block(&write_trail1(&trailer))?;
        self.block(&second_label(file, if eof { Kind::Eof2 } else { Kind::Eov2 }))?;
        self.mark()
    }

    /// Begins a volume with its VOL1.
    #[tactic(auto, using(crate::proofs::Last::kept), unfolding(crate::specs::Labels::volume_label))]
    pub(crate) fn begin_volume(&mut self, volume: &Vol1) -> Result<(), WriteFault>
        requires few { self.old.course.volume < 65535 }
        ensures ok { Changes (block_item (volume_label volume.now) ∷ [])
            (T.holds self.old.out) result (T.holds self.new.out) }
        ensures front { (tapes : Tapes) → T.holds self.old.out tapes
            → HoldsFront (T.holds self.new.out)
            (UnderWay (all_volumes tapes) (block_item (volume_label volume.now) ∷ [])) }
        ensures first { T.holds self.old.out (Ended []) → self.old.course.used ≡ 0
            → LastsFirst (T.holds self.new.out) self.new.course.used }
        ensures course { OnOk result (self.new.course
            ≡ record self.old.course { volume = self.old.course.volume + 1; used = 88 }) }
        ensures lasting { TapeLasts T.TapeOut self.old self.new }
        ensures cause { FailsWith (T.failures self.old.out) result (T.failures self.new.out) }
        ensures asked { OnOk result (T.asked self.new.out volume.now) }
        ensures out { IfErr result IsOfOut }
    {
        if let Err(fault) = self.out.change_volume(volume) {
            return Err(fault_of(fault));
        }
        self.course.volume += 1;
        self.course.used = 0;
        self.block(&write_vol1(volume))
    }

    /// Ensures that `more` bytes, which include the end of the volume, fit on the current volume.
    /// If they do not, ends the section with EOV1 and EOV2, and continues on the next volume.
    #[tactic(auto, using(crate::proofs::Last::kept))]
    pub(crate) fn make_room(
        &mut self,
        file: &Opened,
        volumes: &[Vol1],
        capacity: u32,
        more: u32,
    ) -> Result<(), WriteFault>
        requires ready { IsReady file.now }
        requires wide { AllByRecursion IsWideVolume volumes.now }
        requires roomy { IsRoomy capacity (length volumes.now) self.old.course }
        requires volumes { length volumes.now ≤ 9999 }
        requires end { 192 ≤ more }
        requires capacity { more + 268 ≤ capacity }
        ensures roomy { OnOk result (IsRoomy capacity (length volumes.now) self.new.course) }
        ensures room { OnOk result (self.new.course.used + more ≤ capacity) }
        ensures course { OnOk result ((self.new.course ≡ self.old.course)
            ⊎ ((self.new.course ≡ changed_course self.old.course)
            × (self.old.course.volume < length volumes.now))) }
        ensures place { IfOpen T.TapeOut volumes.now capacity file.now self.old (λ set_id d.
            (next : List Filled) → (capacity < self.old.course.used + more
            → takes_next capacity self.old.course.used next ≡ false) → OnOk result (HasPlace
            (T.holds self.new.out) volumes.now capacity set_id file.now self.new.course next d)) }
        ensures front { IfOpen T.TapeOut volumes.now capacity file.now self.old (λ set_id d.
            (next : List Filled) → (capacity < self.old.course.used + more
            → takes_next capacity self.old.course.used next ≡ false)
            → IfErr result (λ fault. fault ≢ WriteFault.OutOfVolumes → HasPlace
            (HoldsFront (T.holds self.new.out)) volumes.now capacity set_id file.now
            (changed_course self.old.course) next d)) }
        ensures stuck { IfErr result (λ fault. fault ≡ WriteFault.OutOfVolumes
            → (self.new ≡ self.old) × (length volumes.now ≤ self.old.course.volume)
            × (capacity < self.old.course.used + more)) }
        ensures asked { StaysAsked T.TapeOut volumes.now self.old result self.new }
        ensures ending { IfErr result IsEnding }
        ensures lasting { TapeLasts T.TapeOut self.old self.new }
        ensures cause { FailsWith (T.failures self.old.out) result (T.failures self.new.out) }
    {
        if u64::from(self.course.used) + u64::from(more) <= u64::from(capacity) {
            return Ok(());
        }
        let Some(volume) = volumes.get(usize::from(self.course.volume)) else {
            return Err(WriteFault::OutOfVolumes);
        };
        self.end_section(file, false)?;
        self.mark()?;
        self.begin_volume(volume)?;
        let sect = self.course.sect + 1;
        self.begin_section(file, sect)?;
        Ok(())
    }
}

/// Returns the second label of the given kind: HDR2, EOF2 or EOV2.
#[tactic(auto, unfolding(crate::specs::Labels::second_label))]
fn second_label(file: &Opened, kind: Kind) -> [u8; 80]
    requires ready { IsReady file.now }
    requires second { IsSecond kind }
    ensures { result ≡ second_label file.now kind }
{
    let shape = &file.shape;
    write_head2(
        &Head2 {
            format: shape.format,
            block_len: shape.block_len,
            rec_len: shape.rec_len,
            offset: shape.offset,
        },
        kind,
    )
}
