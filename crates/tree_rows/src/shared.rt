// No code: worked rows of the definitions that the plan and the tree share (numbers, rectangles, transforms, clips, boxes, local records), and of the
// lent room of the tree's calls.
