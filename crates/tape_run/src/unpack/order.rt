//! The order in which the images of a file are read.

ghost use Rattle.std.specs.Prelude.{◌≡◌, ◌+◌, ◌<◌, ◌≤◌, [], length, get_or, false, ℕ, IfOk, OnOk};
ghost use Rattle.tape_run.specs.ReadingOrder.{is_in, with_image, followed_by, section_images};
ghost use Rattle.tape_run.specs.ReadingOrder.{is_of_set, images_of, reading_order};
ghost use Rattle.tape_run.specs.Unpacking.{set_of};

use crate::section::{LAST_SECTION, SectionKey};
use crate::survey::locations::Locations;
use crate::survey::view::ImageSurvey;
use crate::unpack::{FoundFiles, set_of};
use std::alloc::{AllocError, Global};
use tape_label::Field;

/// Numbers of images, each at most once.
#[derive(Drop)]
struct Order {
    numbers: Vec<usize>,
    /// For each image, whether its number is one of them.
    taken: Vec<bool>,
    ghost same: { (n : ℕ) → n < length taken.items
        → get_or taken.items n false ≡ is_in n numbers.items },
}

impl FoundFiles {
    /// Returns the numbers of the images in the order in which they are read for a file: first
    /// those on which its sections begin, in the order of the sections, then the others in their
    /// own order; without `all`, only images of the set follow. No number occurs twice.
    ///
    /// # Errors
    ///
    /// Returns `AllocError` if there is no memory for the numbers.
    #[tactic(auto, unfolding(crate::specs::ReadingOrder::reading_order))]
    pub fn reading_order(
        &self,
        alloc: Global,
        set_id: Field<6>,
        file: u16,
        all: bool,
    ) -> Result<Vec<usize>, AllocError>
        ensures { IfOk result (λ order. order.items ≡ reading_order self.now.locations.entries
            self.now.images set_id file all) }
    {
        let images = self.images.as_slice();
        let mut order = Order::new(alloc, images.len())?;
        order.add_sections(&self.locations, set_id, file, 1, LAST_SECTION)?;
        order.add_images(images, set_id, all)?;
        Ok(order.numbers)
    }
}

/// Returns whether the first section that begins on an image belongs to this set.
fn is_of_set(image: &Option<ImageSurvey>, set_id: Field<6>) -> bool
    ensures { result ≡ is_of_set set_id (set_of image.now) }
{
    match set_of(image) {
        Some(found) => found == set_id,
        None => false,
    }
}

impl Order {
    /// Creates an order without numbers, for `size` images.
    fn new(alloc: Global, size: usize) -> Result<Order, AllocError>
        ensures none { IfOk result (λ order. order.numbers.items ≡ []) }
        ensures size { IfOk result (λ order. length order.taken.items ≡ size) }
    {
        Ok(Order {
            numbers: Vec::new(alloc),
            taken: Vec::from_elem(alloc, false, size)?,
        })
    }

    /// Adds image `number`, if it exists and was not added before.
    fn add(&mut self, number: usize) -> Result<(), AllocError>
        ensures ok { OnOk result (self.new.numbers.items
            ≡ with_image (length self.old.taken.items) self.old.numbers.items number) }
        ensures size { length self.new.taken.items ≡ length self.old.taken.items }
    {
        if number >= self.taken.len() || self.taken[number] {
            return Ok(());
        }
        self.numbers.push(number)?;
        self.taken[number] = true;
        Ok(())
    }

    /// Adds the images on which sections begin: `most` sections from `from` on, up to the first
    /// that begins on no known image.
    fn add_sections(
        &mut self,
        locations: &Locations,
        set_id: Field<6>,
        file: u16,
        from: u16,
        most: u16,
    ) -> Result<(), AllocError>
        requires { from + most ≤ 65535 }
        ensures ok { OnOk result (self.new.numbers.items
            ≡ followed_by (length self.old.taken.items) self.old.numbers.items
            (section_images locations.now.entries set_id file from most)) }
        ensures size { length self.new.taken.items ≡ length self.old.taken.items }
    {
        let mut sect = from;
        let mut left = most;
        'sections: while left > 0 {
            let Some(number) = locations.get(&SectionKey { set_id, file, sect }) else {
                return Ok(());
            };
            self.add(*number)?;
            sect += 1;
            left -= 1;
        }
        Ok(())
    }

    /// Adds all images, or only those of the set.
    fn add_images(
        &mut self,
        images: &[Option<ImageSurvey>],
        set_id: Field<6>,
        all: bool,
    ) -> Result<(), AllocError>
        ensures ok { OnOk result (self.new.numbers.items
            ≡ followed_by (length self.old.taken.items) self.old.numbers.items
            (images_of all set_id 0 images.now)) }
    {
        let mut rest = images;
        let mut number = 0usize;
        'images: while let Some((image, more)) = rest.split_first() {
            if all || is_of_set(image, set_id) {
                self.add(number)?;
            }
            rest = more;
            number += 1;
        }
        Ok(())
    }
}
