//! Looks at what stands in the cache. They change nothing and take no memory.
ghost use Rattle.std.specs.Prelude.{◌≡◌, true, IsNone, IfSome};
ghost use Rattle.sn_model.specs.Caches.{no_line, line_of, is_present};

use super::Cache;
use crate::looks::{Line, OpenMiss, OpenPut};
use sn_base::BlockNo;

impl Cache {
    /// The line of a block. None where the cache has none.
    pub fn line(&self, block: BlockNo) -> Option<Line>
        ensures none { IsNone result → line_of self.now.cache block ≡ no_line }
        ensures some { IfSome result (λ line. (line ≡ line_of self.now.cache block) × (is_present line.state ≡ true)) }
    {
        let kept = self.lines.find(block)?;
        Some(Line {
            state: kept.state,
            content: kept.content,
        })
    }

    /// The open miss, if there is one.
    pub fn miss(&self) -> Option<OpenMiss>
        ensures { result ≡ self.now.cache.miss }
    {
        let miss = self.transactions.miss()?;
        Some(OpenMiss {
            block: miss.block,
            need: self.need,
            issued: miss.issued,
            fixed: miss.fixed,
            due: miss.acks_due,
            acks: miss.acks_in,
        })
    }

    /// The open put, if there is one.
    pub fn put(&self) -> Option<OpenPut>
        ensures { result ≡ self.now.cache.put }
    {
        let put = self.transactions.put()?;
        Some(OpenPut {
            block: put.block,
            issued: put.issued,
        })
    }
}
