// A theorem alone: no call takes bytes after a path for the path's. specs/BytesAfterPath.antt states it.
#![tactic(auto)]
