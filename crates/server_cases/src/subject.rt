// What the cases are about: something over one disk or two, and the steps that go with anything.
use crate::runs::{add_last, note};
use case_texts::{add, add_hex, cut};
use disk_model::MemDisk;
use placement_node::PlacementOpenError;
use std::alloc::Global;
use std::sync::Wait;

/// One disk, or two.
#[derive(Drop)]
pub(crate) struct Disks {
    pub(crate) first: MemDisk,
    pub(crate) second: Option<MemDisk>,
}

/// Something that is kept on disks.
pub(crate) trait Subject: Drop {
    /// Opens it, or says why it isn't opened.
    fn open(alloc: Global, disks: Disks, create: bool) -> Result<Self, (PlacementOpenError, Disks)>;

    fn close(self) -> Disks;

    fn first(&self) -> &MemDisk;

    fn second(&self) -> Option<&MemDisk>;

    /// Makes a step of its own, and appends what that tells.
    fn step<R: Wait>(
        rt: &R,
        alloc: Global,
        kept: &mut Option<Self>,
        words: &str,
        text: &mut String,
    ) -> Option<()>;
}

/// What a case is about, or the disks that its opening has left. It is lent from step to step, so that it is let go in one
/// place.
#[derive(Drop)]
pub(crate) struct Case<T> {
    kept: Option<T>,
    left: Option<Disks>,
}

impl<T: Subject> Case<T> {
    /// Nothing yet.
    pub(crate) fn new() -> Case<T> {
        Case {
            kept: None,
            left: None,
        }
    }

    /// Opens it, and appends why it is refused; true if it isn't.
    pub(crate) fn open(
        &mut self,
        alloc: Global,
        disks: Disks,
        create: bool,
        text: &mut String,
    ) -> Option<bool> {
        match T::open(alloc, disks, create) {
            Ok(kept) => {
                self.kept = Some(kept);
                Some(true)
            }
            Err((error, disks)) => {
                self.left = Some(disks);
                add(format!(in alloc; "refused: {error}").ok()?.as_str(), text)?;
                Some(false)
            }
        }
    }

    // Hands its disks back.
    fn close(&mut self) -> Option<Disks> {
        match self.kept.take() {
            Some(kept) => Some(kept.close()),
            None => self.left.take(),
        }
    }

    fn first(&self) -> Option<&MemDisk> {
        match &self.kept {
            Some(kept) => Some(kept.first()),
            None => Some(&self.left.as_ref()?.first),
        }
    }

    fn second(&self) -> Option<&MemDisk> {
        match &self.kept {
            Some(kept) => kept.second(),
            None => self.left.as_ref()?.second.as_ref(),
        }
    }

    // What a crash may leave of its disks now.
    fn images(&self, choice: u64) -> Option<Disks> {
        let first = self.first()?.image(choice).ok()?;
        let second = match self.second() {
            Some(disk) => Some(disk.image(choice).ok()?),
            None => None,
        };
        Some(Disks { first, second })
    }

    // Opens it over these disks.
    fn reopen(&mut self, alloc: Global, disks: Disks, text: &mut String) -> Option<()> {
        if self.open(alloc, disks, false, text)? {
            add("opened", text)?;
        }
        Some(())
    }

    // `again`
    fn again(&mut self, alloc: Global, text: &mut String) -> Option<()> {
        let disks = self.close()?;
        self.reopen(alloc, disks, text)
    }

    // `image CHOICE`
    fn image(&mut self, alloc: Global, rest: &str, text: &mut String) -> Option<()> {
        let disks = self.images(rest.parse::<u64>().ok()?)?;
        let _ended = self.close();
        self.reopen(alloc, disks, text)
    }

    // What a step tells over the images of this choice.
    fn told_of_image<R: Wait>(
        &self,
        rt: &R,
        alloc: Global,
        choice: u64,
        words: &str,
    ) -> Option<String> {
        let mut other = Case::<T>::new();
        let mut text = String::new(alloc);
        let disks = self.images(choice)?;
        if other.open(alloc, disks, false, &mut text)? {
            T::step(rt, alloc, &mut other.kept, words, &mut text)?;
        }
        Some(text)
    }

    // `images CHOICE,CHOICE,.. STEP`
    fn all_images<R: Wait>(
        &self,
        rt: &R,
        alloc: Global,
        rest: &str,
        text: &mut String,
    ) -> Option<()> {
        let (choices, words) = rest.split_once(' ')?;
        let mut run = None;
        for choice in choices.split(',') {
            let choice = choice.parse::<u64>().ok()?;
            let told = self.told_of_image(rt, alloc, choice, words)?;
            note(alloc, &mut run, choice, told, text)?;
        }
        add_last(alloc, &run, text)
    }

    // Makes a step, and appends what it tells.
    fn step<R: Wait>(
        &mut self,
        rt: &R,
        alloc: Global,
        words: &str,
        text: &mut String,
    ) -> Option<()> {
        let (word, rest) = cut(words, ' ');
        match word {
            "again" => self.again(alloc, text),
            "image" => self.image(alloc, rest, text),
            "images" => self.all_images(rt, alloc, rest, text),
            "first" => add_hex(alloc, self.first()?.bytes(), text),
            "second" => add_hex(alloc, self.second()?.bytes(), text),
            _ => T::step(rt, alloc, &mut self.kept, words, text),
        }
    }

    /// Makes the steps one after another, and appends what they tell.
    pub(crate) fn steps<R: Wait>(
        &mut self,
        rt: &R,
        alloc: Global,
        steps: &str,
        text: &mut String,
    ) -> Option<()> {
        for words in steps.split(';') {
            self.step(rt, alloc, words, text)?;
            add(";", text)?;
        }
        Some(())
    }
}
