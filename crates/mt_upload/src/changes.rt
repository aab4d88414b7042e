//! What commands on uploads make of the uploads and the rows.
ghost use Rattle.std.specs.Prelude.{◌≡◌, None, OnErr, OnOk};
ghost use Rattle.mt_types.specs.declared.object.Entry.TheVariants as entry;
ghost use Rattle.mt_model.specs.Rows.{put_refusal, with_row};
ghost use Rattle.mt_model.specs.UploadSteps.{ended_as, upload_object};

use crate::parts::put_part;
use crate::uploads::{Uploads, find};
use mt_tree::Tree;
use mt_types::{
    Duplicate, NUMBERS_A_COMMAND, Object, PartRow, Path, Sequence, Stage, Text, Upload,
};
use std::alloc::{AllocError, Global};

// An upload takes no more parts, and those that it has are let go.
fn end_upload<B: Drop>(alloc: Global, upload: &mut Upload<B>, stage: Stage)
    ensures { upload.new ≡ ended_as stage upload.old }
{
    upload.parts = Sequence::new(alloc);
    upload.stage = stage;
}

// Puts the object of an upload at its path.
fn put_joined<B: Drop>(
    alloc: Global,
    tree: &mut Tree<B>,
    upload: &Upload<B>,
    number: u64,
    body: B,
    moment: u64,
) -> Result<(), AllocError>
    requires { put_refusal tree.old upload.now.path ≡ None }
    ensures ok { OnOk result (tree.new ≡ with_row tree.old upload.now.path (entry.Object (upload_object number upload.now body moment))) }
    ensures err { OnErr result (tree.new ≡ tree.old) }
{
    let path = upload.path.copy(alloc)?;
    let content_type = upload.content_type.copy(alloc)?;
    tree.put_object(
        path,
        Object {
            number,
            body,
            content_type,
            durability: None,
            metadata: Sequence::new(alloc),
            mtime: moment,
        },
    )
}

impl<B: Duplicate> Uploads<B> {
    ghost use Rattle.std.specs.Prelude.{◌≡◌, ◌<◌, ℕ, List, None, OnErr, OnOk};
    ghost use Rattle.mt_types.specs.declared.command.Command.TheVariants.{AbortUpload, CommitUpload, NewUpload, PutPart};
    ghost use Rattle.mt_types.specs.declared.limits.TheConstants.{MOST_COMMANDS};
    ghost use Rattle.mt_model.specs.CommandStep.{change};
    ghost use Rattle.mt_model.specs.Lawful.{LawfulUploads};
    ghost use Rattle.mt_model.specs.Rows.{Rows, put_refusal};
    ghost use Rattle.mt_model.specs.State.{upload_at, with_upload};
    ghost use Rattle.mt_model.specs.UploadSteps.{ended_as, upload_refusal};
    ghost use Rattle.mt_upload.specs.Shown.{state_of};

    // The upload of a number takes no more parts.
    fn end_as(&mut self, alloc: Global, upload: u64, stage: Stage)
        ensures { self.new ≡ with_upload self.old upload (ended_as stage) }
    {
        if let Ok(place) = find(&self.uploads, upload) {
            end_upload(alloc, &mut self.uploads[place], stage);
        }
    }

    /// Begins an upload for a path, as the command after so many: its number is 4,096 times the position. [`crate::may_begin`] has to
    /// allow it for the uploads to stay lawful. On an error, which is want of memory, nothing has changed.
    pub fn begin(
        &mut self,
        alloc: Global,
        position: u64,
        path: Path,
        content_type: Text,
        moment: u64,
    ) -> Result<(), AllocError>
        requires room { position < MOST_COMMANDS }
        requires lawful { LawfulUploads position self.old }
        ensures ok { OnOk result ((rows : Rows B) → state_of position rows self.new ≡ change (state_of position rows self.old) (NewUpload path content_type moment)) }
        ensures err { OnErr result (self.new ≡ self.old) }
    {
        self.uploads.push(Upload {
            number: position * NUMBERS_A_COMMAND,
            path,
            content_type,
            moment,
            parts: Sequence::new(alloc),
            stage: Stage::Open,
        })?;
        Ok(())
    }

    /// Puts a part to an upload, as the command after so many, in the place of the one of its index. [`Uploads::may_put_part`] has to
    /// allow it, and the index to be 9,999 at most, for the uploads to stay lawful. On an error, which is want of memory, nothing has
    /// changed.
    pub fn put_part(
        &mut self,
        alloc: Global,
        position: u64,
        upload: u64,
        index: u16,
        body: B,
    ) -> Result<(), AllocError>
        requires room { position < MOST_COMMANDS }
        ensures ok { OnOk result ((rows : Rows B) (moment : ℕ) → state_of position rows self.new ≡ change (state_of position rows self.old) (PutPart upload index body moment)) }
        ensures err { OnErr result (self.new ≡ self.old) }
    {
        let number = position * NUMBERS_A_COMMAND;
        let part = PartRow {
            index,
            number,
            body,
        };
        match find(&self.uploads, upload) {
            Ok(place) => put_part(alloc, &mut self.uploads[place].parts, part),
            Err(_) => Ok(()),
        }
    }

    /// Commits an upload, as the command after so many: its object, of this body, appears at its path, and the upload takes no more
    /// parts. [`Uploads::may_commit`] has to allow it, and the body to be its parts' bytes, one behind another, for that to be what was
    /// put. On an error, which is want of memory, nothing has changed.
    pub fn commit(
        &mut self,
        alloc: Global,
        tree: &mut Tree<B>,
        position: u64,
        upload: u64,
        body: B,
        moment: u64,
    ) -> Result<(), AllocError>
        requires room { position < MOST_COMMANDS }
        requires allowed { upload_refusal (upload_at self.old upload) (λ u. put_refusal tree.old u.path) ≡ None }
        ensures ok { OnOk result ((numbers : List ℕ) → state_of position tree.new self.new ≡ change (state_of position tree.old self.old) (CommitUpload upload numbers body moment)) }
        ensures err { OnErr result ((self.new ≡ self.old) × (tree.new ≡ tree.old)) }
    {
        let Some(begun) = self.get(upload) else {
            return Ok(());
        };
        let number = position * NUMBERS_A_COMMAND;
        // The object first, since putting it may want memory; what follows can't fail.
        put_joined(alloc, tree, begun, number, body, moment)?;
        self.end_as(alloc, upload, Stage::Committed);
        Ok(())
    }

    /// Gives an upload up: its parts are let go. [`Uploads::may_abort`] has to allow it for the uploads to stay lawful. It takes no
    /// memory: the allocator is kept by the empty list.
    pub fn abort(&mut self, alloc: Global, upload: u64)
        ensures { (position moment : ℕ) (rows : Rows B) → state_of position rows self.new ≡ change (state_of position rows self.old) (AbortUpload upload moment) }
    {
        self.end_as(alloc, upload, Stage::Aborted);
    }
}
